// Numbers in bytes, little-endian.
ghost use Rattle.std.specs.Prelude.{◌≡◌, ◌+◌, ◌≤◌, length};
ghost use Rattle.plan.specs.Numbers.{number_at};
ghost use Rattle.feed.specs.Fields.{double_at};

// The number that so many bytes spell from a place on: a field's length is known only when it is read, so that no array is there for
// `from_le_bytes`.
pub fn number_at(bytes: &[u8], at: usize, many: usize) -> u64
    requires { (many ≤ 8) × (at + many ≤ length bytes.now) }
    ensures { result ≡ number_at bytes.now at many }
{
    let mut value: u64 = 0;
    for i in (0..many).rev() {
        value = 256 * value + u64::from(bytes[at + i]);
    }
    value
}

// The double of eight bytes.
#[tactic(auto, unfolding(crate::specs::Fields::double_at))]
pub fn double_at(bytes: &[u8], at: usize) -> f64
    requires { at + 8 ≤ length bytes.now }
    ensures { result ≡ double_at bytes.now at }
{
    answers::double(number_at(bytes, at, 8))
}
