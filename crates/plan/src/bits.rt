// The ranges of a plan's doubles, judged on their bits.
ghost use Rattle.std.specs.Prelude.{◌≡◌};
ghost use Rattle.std.specs.Float.{binary64};
ghost use Rattle.std.specs.Float.Ieee.{nan_bits};
ghost use Rattle.plan.specs.Ranges.{floor_fits, ratio_fits};

// Whether these are a NaN's bits. `answers` has the same text: neither crate stands on the other, and `f64::from_bits`, so `f64::is_nan` after
// it, asks that they are no NaN's.
fn is_nan(bits: u64) -> bool
    ensures { result ≡ nan_bits binary64 bits }
{
    0x7ff0_0000_0000_0000 < bits % 0x8000_0000_0000_0000
}

// Whether a floor lies in [0,1].
pub fn floor_fits(bits: u64) -> bool
    ensures { result ≡ floor_fits bits }
{
    if is_nan(bits) {
        return false;
    }
    let x = f64::from_bits(bits);
    (0.0..=1.0).contains(&x)
}

// Whether a ratio is finite and at least 1.
pub fn ratio_fits(bits: u64) -> bool
    ensures { result ≡ ratio_fits bits }
{
    if is_nan(bits) {
        return false;
    }
    let x = f64::from_bits(bits);
    let infinity = f64::from_bits(0x7ff0_0000_0000_0000);
    1.0 <= x && x < infinity
}
