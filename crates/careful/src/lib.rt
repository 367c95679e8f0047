// The root of a double from any guess, judged in whole numbers.
#![tactic(auto)]

mod digits;

ghost use Rattle.std.specs.Prelude.{◌≡◌, T};
ghost use Rattle.std.specs.Float.Ieee.Positive.{positive};
ghost use Rattle.careful.specs.Root.{root_of};

// The root of x, which is finite and above 0.
fn careful_root(x: f64, guess: f64) -> f64
    requires { T (positive x) }
    ensures { result ≡ root_of x }
{
    let p = doubles::split(f64::to_bits(x));
    let q = digits::nearest_root(guess, p.digits, p.shift % 2);
    f64::from_bits((p.shift / 2 + 485) * 0x10_0000_0000_0000 + q)
}

// The double nearest the true root, ties to even; NaN for a negative or a NaN, infinity for infinity; a zero keeps its sign.
// For an x that is finite and above 0 it takes a step for each unit by which the guess, of the root of x times a power of 4
// from 1/2 to below 2, misses.
pub fn root_from(x: f64, guess: f64) -> f64
    ensures { result ≡ root_of x }
{
    if doubles::above_zero(x) {
        return careful_root(x, guess);
    }
    if 0.0 <= x {
        return x;
    }
    0.0 / 0.0
}
