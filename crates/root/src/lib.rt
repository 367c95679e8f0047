// The root of a double: the double nearest the true root, for every input.
#![tactic(auto)]

mod positive;

ghost use Rattle.std.specs.Prelude.{◌≡◌};
ghost use Rattle.careful.specs.Root.{root_of};

use positive::{careful_root, guess, is_root};

// The double nearest the true root, ties to even; NaN for a negative or a NaN, infinity for infinity;
// a zero keeps its sign. What is above 0 is no NaN, so that its bits may be asked. The judge is named twice, so that it stays a call
// and the quick way needs no room on the stack (docs/BENCHMARK.md).
pub fn sqrt(x: f64) -> f64
    ensures { result ≡ root_of x }
{
    if !(0.0 < x) {
        return careful_root(x);
    }
    let bits = f64::to_bits(x);
    let g = guess(bits);
    if 0.0 < g {
        if is_root(f64::to_bits(g), bits) {
            return g;
        }
    }
    careful_root(x)
}
