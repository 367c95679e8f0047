// Numbers in bytes, little-endian. What is read past the end is 0.
ghost use Rattle.std.specs.Prelude.{◌≡◌, ◌+◌, ◌<◌, ◌≤◌, length, get_or};
ghost use Rattle.plan.specs.Numbers.{number_at};

// The byte at a place.
pub fn byte_at(bytes: &[u8], at: usize) -> usize
    ensures { (result ≡ get_or bytes.now at 0) × (result < 256) }
{
    bytes.get(at).map_or(0, |byte| usize::from(*byte))
}

// The number of two bytes. Each width by its halves, whose bounds give its own and are asked of it; what lies past the end is 0, so that no
// array of bytes is there to be read.
pub fn pair_at(bytes: &[u8], at: usize) -> usize
    requires { at ≤ length bytes.now + 131072 }
    ensures { (result ≡ number_at bytes.now at 2) × (result < 65536) }
{
    let low = byte_at(bytes, at);
    let high = byte_at(bytes, at + 1);
    low + 256 * high
}

// The number of four bytes.
pub fn four_at(bytes: &[u8], at: usize) -> usize
    requires { at ≤ length bytes.now + 131064 }
    ensures { (result ≡ number_at bytes.now at 4) × (result < 0x1_0000_0000) }
{
    let low = pair_at(bytes, at);
    let high = pair_at(bytes, at + 2);
    low + 0x1_0000 * high
}

// The number of eight bytes.
pub fn eight_at(bytes: &[u8], at: usize) -> u64
    requires { at ≤ length bytes.now + 131056 }
    ensures { result ≡ number_at bytes.now at 8 }
{
    let low = four_at(bytes, at);
    let high = four_at(bytes, at + 4);
    (low as u64) + 0x1_0000_0000 * (high as u64)
}
