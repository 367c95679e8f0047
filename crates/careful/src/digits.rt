// The digits of a root: the whole number nearest to it, from any guess.
ghost use Rattle.std.specs.Prelude.{◌+◌, ◌*◌, ◌^◌, ◌≤◌, ◌<◌};
ghost use Rattle.careful.specs.Digits.{Words, Radicand, NearRoot, Tells, Wrong, Closer};

#[derive(Drop)]
struct Wide {
    high: u64,
    low: u64,
}

// q * (q + 1) in two words of 52 binary digits, from halves of 26.
fn product(q: u64) -> Wide
    requires { q < 2 ^ 53 }
    ensures { Words (q * (q + 1)) result.high result.low }
{
    let a = q / 0x400_0000;
    let b = q % 0x400_0000;
    let last = b * b + q;
    let middle = 2 * a * b + last / 0x400_0000;
    let high = a * a + middle / 0x400_0000;
    let low = middle % 0x400_0000 * 0x400_0000 + last % 0x400_0000;
    Wide { high, low }
}

// Whether q is the whole number nearest to the root of d * 2^52, (q - 1) * q < d * 2^52 <= q * (q + 1).
// The lower product is the upper one less 2q; 2^54 is lent to it, and paid back as 4 in the high word.
fn is_near(q: u64, d: u64) -> bool
    requires { (q < 2 ^ 53) × (d < 2 ^ 54) }
    ensures { Tells result (NearRoot (d * 2 ^ 52) q) }
{
    let p = product(q);
    let lower = p.high + (p.low + 0x40_0000_0000_0000 - 2 * q) / 0x10_0000_0000_0000;
    (d <= p.high) & (lower < d + 4)
}

// A step from a q that is not nearest towards the one that is.
fn moved(q: u64, d: u64) -> u64
    requires { Wrong d q }
    ensures { Closer d q result }
{
    let p = product(q);
    if p.high < d {
        return q + 1;
    }
    q - 1
}

// The whole number nearest to the root of d * 2^52, from any guess: a `while`, since no range says how many steps a guess is off.
fn nearest(guess: u64, d: u64) -> u64
    requires { (1 ≤ guess) × (guess < 2 ^ 53) × Radicand d }
    ensures { NearRoot (d * 2 ^ 52) result × (result < 2 ^ 53) }
{
    let mut q = guess;
    while !is_near(q, d) {
        q = moved(q, d);
    }
    q
}

// The 53 digits of a guess from 1 to below 2, or where odd is 1 from 1/2 to below 1; for any other those of the end next to it.
fn leading(g: f64, odd: u64) -> u64
    requires { odd ≤ 1 }
    ensures { (2 ^ 52 ≤ result) × (result < 2 ^ 53) }
{
    if g <= 2.0 {
        let bits = f64::to_bits(g);
        if bits / 0x10_0000_0000_0000 == 1023 - odd {
            return bits % 0x10_0000_0000_0000 + 0x10_0000_0000_0000;
        }
    }
    0x10_0000_0000_0000 + odd * 0xf_ffff_ffff_ffff
}

// The whole number nearest to the root of digits * 2^52, or where odd is 1 of twice that.
pub fn nearest_root(guess: f64, digits: u64, odd: u64) -> u64
    requires { (2 ^ 52 ≤ digits) × (digits < 2 ^ 53) × (odd ≤ 1) }
    ensures { NearRoot (digits * (1 + odd) * 2 ^ 52) result × (result < 2 ^ 53) }
{
    nearest(leading(guess, odd), digits * (1 + odd))
}
