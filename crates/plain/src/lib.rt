// The plain kernels on doubles, one or two operations each. Each answers every input, and its promise, one
// equation with a definition, says which double it answers.
#![tactic(auto)]

ghost use Rattle.std.specs.Prelude.{◌≡◌};
ghost use Rattle.doubles.specs.Finite.{finite_of};
ghost use Rattle.plain.specs.Norm.{norm_of};
ghost use Rattle.doubles.specs.Inverse.{inv_of};
ghost use Rattle.doubles.specs.Whole.{whole_of};
ghost use Rattle.doubles.specs.Count.{count_of};

// Whether x is neither a NaN nor an infinity.
pub fn finite(x: f64) -> bool
    ensures { result ≡ finite_of x }
{
    let infinity = 1.0 / 0.0;
    if x < infinity { -infinity < x } else { false }
}

// x without its sign, the Rust's `norm`.
pub fn norm(x: f64) -> f64
    ensures { result ≡ norm_of x }
{
    if x <= 0.0 { 0.0 - x } else { x }
}

// 1 / x, the Rust's `inv`.
pub fn inv(x: f64) -> f64
    ensures { result ≡ inv_of x }
{
    1.0 / x
}

// x without its fraction, as the Rust's `x as u64`: 0 for a NaN and for what is below 0, and 2^64 - 1
// from 2^64 on.
pub fn whole(x: f64) -> u64
    ensures { result ≡ whole_of x }
{
    if 18446744073709551616.0 <= x {
        return 18446744073709551615;
    }
    if 0.0 < x {
        return std::num::truncating_f64_to_u64(x);
    }
    0
}

// The double nearest n, n itself up to 2^53; there one instruction makes it.
pub fn count(n: u64) -> f64
    ensures { result ≡ count_of n }
{
    if n <= 9007199254740992 {
        return n as f64;
    }
    std::num::nearest_u64_to_f64(n)
}
