// Doubles: the kernels. Each answers every input, and its promise, one equation with a definition, says which
// double it answers. The plain ones are the crate `plain`'s, the root the crate `root`'s.
#![tactic(auto)]

mod exp;
mod log;

ghost use Rattle.std.specs.Prelude.{◌≡◌};
ghost use Rattle.real.specs.Ln.{ln_of};
ghost use Rattle.real.specs.Power.{power_of};

pub use plain::{count, finite, inv, norm, whole};
pub use root::sqrt;

// The logarithm of x, every step one rounded operation; NaN for anything not finite and above 0.
pub fn ln(x: f64) -> f64
    ensures { result ≡ ln_of x }
{
    if !doubles::above_zero(x) {
        return 0.0 / 0.0;
    }
    let p = doubles::split(f64::to_bits(x));
    log::turned(log::mantissa(p.digits), p.shift)
}

// The power y^a, every step one rounded operation; NaN for a y outside [2^-10, 2] or an a outside
// [0, 10].
pub fn power(y: f64, a: f64) -> f64
    ensures { result ≡ power_of y a }
{
    if !exp::in_domain(y, a) {
        return 0.0 / 0.0;
    }
    let t = a * ln(y);
    let v = 0.5 - t / 0.6931471805599453;
    if 0.0 <= v {
        let k = plain::whole(v);
        return exp::scaled(t, plain::count(k), 1023 - k);
    }
    let n = exp::ceiling(-v);
    exp::scaled(t, -plain::count(n), 1023 + n)
}
