// The parts of the root: a guess, in whole numbers and then in doubles, a quick test of its bits in whole numbers, and the judge of
// any guess.
ghost use Rattle.std.specs.Prelude.{◌≡◌, ◌+◌, ◌*◌, ◌/◌, ◌^◌, ◌<◌, ◌≤◌, true};
ghost use Rattle.careful.specs.Digits.{NearRoot};
ghost use Rattle.careful.specs.Root.{root_of};
ghost use Rattle.root.specs.Digits.{Right};

// A normal double's digits as a number from 1/2 to below 2: x times a power of 4.
fn unit(bits: u64) -> f64 {
    f64::from_bits(bits % 0x20_0000_0000_0000 + 0x3fe0_0000_0000_0000)
}

// The leading digits of the root, by the bits of the number: a cubic polynomial of the 26 leading digits behind the first, as two
// factors, in whole numbers, which the processor works out beside the doubles. They are the root's to one part in seven thousand,
// 26 at most and 27 zeros behind them, so that their square is a double.
fn leading(bits: u64) -> u64
    ensures { result ≤ 2 ^ 55 }
{
    let even = bits / 0x10_0000_0000_0000 % 2;
    let f = bits % 0x10_0000_0000_0000 / 0x400_0000;
    let scale = if even == 1 { 107105432 } else { 151469954 };
    let first = (f + 95641766) * scale / 0x1_0000_0000;
    let second = 1888385671 - f * (386105540 - f) / 0x400_0000;
    let p = first * second;
    p - p % 0x800_0000
}

// The bits of the power of two at or below the root of a normal double, by the double's bits.
fn power(bits: u64) -> u64
    ensures { result ≡ (bits / 2 + 0x1ff8_0000_0000_0000) / 2 ^ 52 * 2 ^ 52 }
{
    (bits / 2 + 0x1ff8_0000_0000_0000) / 0x10_0000_0000_0000 * 0x10_0000_0000_0000
}

// About the root of x, times a power of two. The root starts from h, and k is h times that power. What is left is a fraction, right up to
// the fifth power of x / h^2 - 1; it is scaled like k before it is added, so that nothing follows the addition.
fn refined(x: f64, h: f64, k: f64) -> f64 {
    let hh = h * h;
    let sum = x + hh;
    let above = 0.8 * k * (x - hh) * sum;
    let below = sum * sum - 0.8 * (x * x);
    k + above / below
}

// About the root of a normal double, by its bits. Nothing is promised of it: it is judged, and of a hundred thousand some four are moved,
// by one.
pub fn guess(bits: u64) -> f64
    requires { bits < 2 ^ 63 }
{
    let even = bits / 0x10_0000_0000_0000 % 2;
    let p = leading(bits);
    let h = f64::from_bits((1021 + even) * 0x10_0000_0000_0000 + p);
    let k = f64::from_bits(power(bits) - 0x10_0000_0000_0000 + p);
    refined(unit(bits), h, k)
}

// Whether q is surely nearest to the root of d * 2^52; a no says nothing. With q = a * 2^26 + b what q * q + q has more than that is
// ((a * a - d) * 2^26 + 2 * a * b) * 2^26 + b * b + q, and lies from 0 to below 2 * q where q is nearest. It is worked out word by word; where
// v, which is d - a * a, and w are small, nothing of it was lost by wrapping. The judge in `careful` tells both ways, and takes longer.
fn is_sure(q: u64, d: u64) -> bool
    requires { (q < 2 ^ 53) × (d ≤ 2 ^ 54) }
    ensures { result ≡ true → NearRoot (d * 2 ^ 52) q }
{
    let a = q / 0x400_0000;
    let b = q % 0x400_0000;
    let v = d.wrapping_sub(a * a);
    let w = (2 * a * b).wrapping_sub(v << 26);
    let rest = (w << 26).wrapping_add(b * b + q);
    (v < 0x2000_0000) & (w.wrapping_add(0x2000_0000) < 0x4000_0000) & (rest < 2 * q)
}

// Whether e are surely the bits of the root of the double whose bits are `bits`, a normal one; a no says nothing.
pub fn is_root(e: u64, bits: u64) -> bool
    ensures { result ≡ true → Right bits e }
{
    let top = bits / 0x10_0000_0000_0000;
    let rest = e.wrapping_sub(power(bits));
    if (0 < top) & (top < 2047) & (rest < 0x10_0000_0000_0000) {
        let m = bits % 0x10_0000_0000_0000 + 0x10_0000_0000_0000;
        return is_sure(rest + 0x10_0000_0000_0000, m * (2 - top % 2));
    }
    false
}

// The root of x, by the judge that any guess suffices for.
pub fn careful_root(x: f64) -> f64
    ensures { result ≡ root_of x }
{
    if !doubles::above_zero(x) {
        return careful::root_from(x, x);
    }
    let p = doubles::split(f64::to_bits(x));
    careful::root_from(
        x,
        guess((1022 - p.shift % 2) * 0x10_0000_0000_0000 + p.digits),
    )
}
