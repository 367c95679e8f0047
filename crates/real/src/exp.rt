// The parts of the power.
ghost use Rattle.std.specs.Prelude.{◌≡◌, false, ◌<◌, ◌≤◌, T};
ghost use Rattle.std.specs.Float.{fin, binary64};
ghost use Rattle.std.specs.Float.Ieee.{add, mul, minus};
ghost use Rattle.std.specs.Float.Ieee.Positive.{positive};
ghost use Rattle.real.specs.Ln.{ln2};
ghost use Rattle.real.specs.Power.{ceil_of, exp_of, in_domain};
ghost use Rattle.doubles.specs.Bound.{Within};

// Whether y is in [2^-10, 2] and a in [0, 10].
pub fn in_domain(y: f64, a: f64) -> bool
    ensures { result ≡ in_domain y a }
{
    (0.0009765625 <= y) & (y <= 2.0) & ((0.0 <= a) & (a <= 10.0))
}

// The least whole number not below v, which is small and above 0.
pub fn ceiling(v: f64) -> u64
    requires { Within v 999 × T (positive v) }
    ensures { (result ≡ ceil_of v) × (1 ≤ result) × (result < 1000) }
{
    let n = plain::whole(v);
    if plain::count(n) < v {
        return n + 1;
    }
    n
}

// e^r, by fourteen steps of Horner's rule.
fn series(r: f64) -> f64
    ensures { result ≡ exp_of r 14 }
{
    let mut p = 1.0;
    for n in 0..14u32 {
        p = 1.0 + (r * p) / ((14 - n) as f64);
    }
    p
}

// 2^(e - 1023), a normal double.
fn two_to(e: u64) -> f64
    requires { (1 ≤ e) × (e < 2047) }
    ensures { result ≡ fin false 1 (minus e 1023) }
{
    f64::from_bits(e * 0x10_0000_0000_0000)
}

// e^(t + k * LN2) * 2^(e - 1023).
pub fn scaled(t: f64, k: f64, e: u64) -> f64
    requires { (1 ≤ e) × (e < 2047) }
    ensures { result ≡ mul binary64 (exp_of (add binary64 t (mul binary64 k ln2)) 14) (fin false 1 (minus e 1023)) }
{
    series(t + k * 0.6931471805599453) * two_to(e)
}
