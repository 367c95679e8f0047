// The doubles: the laws in proofs/ that the crates above cite, with the definitions that they need, and what both the root and
// the logarithm ask of a double before they begin. And the document's refusals by name, which all crates' answers have.
#![tactic(auto)]

mod refusal;

ghost use Rattle.std.specs.Prelude.{◌≡◌, ◌^◌, ◌<◌};
ghost use Rattle.std.specs.Float.Ieee.Positive.{positive};
ghost use Rattle.doubles.specs.Split.{lifted_of, split_of};

pub use refusal::Refusal;

// Whether x is finite and above 0.
pub fn above_zero(x: f64) -> bool
    ensures { result ≡ positive x }
{
    if 0.0 < x {
        return x - x <= 0.0;
    }
    false
}

// A double's binary digits: it is digits * 2^shift / 2^1126.
#[derive(Clone, Copy)]
pub struct Parts {
    pub digits: u64,
    pub shift: u64,
}

// The digits of a subnormal, moved up to 53; 0 has none.
fn lifted(bits: u64) -> Parts
    requires { bits < 2 ^ 52 }
    ensures { result ≡ lifted_of bits }
{
    if bits == 0 {
        return Parts {
            digits: 0,
            shift: 0,
        };
    }
    let up = (u64::leading_zeros(bits) - 11) as u64;
    Parts {
        digits: bits << up,
        shift: 52 - up,
    }
}

// The 53 binary digits of a double that is finite and above 0, from its bits.
pub fn split(bits: u64) -> Parts
    ensures { result ≡ split_of bits }
{
    if bits < 0x10_0000_0000_0000 {
        return lifted(bits);
    }
    Parts {
        digits: bits % 0x10_0000_0000_0000 + 0x10_0000_0000_0000,
        shift: bits / 0x10_0000_0000_0000 + 51,
    }
}
