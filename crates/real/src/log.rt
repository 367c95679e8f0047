// The parts of the logarithm.
ghost use Rattle.std.specs.Prelude.{◌≡◌, ◌+◌, ◌^◌, ◌<◌};
ghost use Rattle.std.specs.Float.{binary64};
ghost use Rattle.std.specs.Float.Ieee.{of_bits, of_int, minus};
ghost use Rattle.real.specs.Ln.{log_of, turned_of};

// Fifty-three digits as a number from 1 to below 2.
pub fn mantissa(digits: u64) -> f64
    requires { digits < 2 ^ 53 }
    ensures { result ≡ of_bits binary64 (digits + 0x3fe0_0000_0000_0000) }
{
    f64::from_bits(digits + 0x3fe0_0000_0000_0000)
}

// The whole number k - 1074.
pub fn exponent(k: u64) -> f64
    requires { k < 2100 }
    ensures { result ≡ of_int binary64 (minus (k + 1) 1075) }
{
    if 1074 <= k {
        return ((k - 1074) as u32) as f64;
    }
    -(((1074 - k) as u32) as f64)
}

// The logarithm of m * 2^e for an m near 1: e * LN2 + 2 artanh((m - 1) / (m + 1)), by ten steps of
// Horner's rule.
pub fn series(m: f64, e: f64) -> f64
    ensures { result ≡ log_of m e }
{
    let s = (m - 1.0) / (m + 1.0);
    let z = s * s;
    let mut c = 1.0 / 21.0;
    for n in 0..10u32 {
        c = 1.0 / ((19 - 2 * n) as f64) + z * c;
    }
    e * 0.6931471805599453 + (2.0 * s) * c
}

// The logarithm of m * 2^(k - 1074) for an m from 1 to below 2, which is halved where that brings it nearer to 1.
pub fn turned(m: f64, k: u64) -> f64
    requires { k < 2098 }
    ensures { result ≡ turned_of m (minus (k + 1) 1075) }
{
    if 1.4140625 < m {
        return series(m * 0.5, exponent(k + 1));
    }
    series(m, exponent(k))
}
