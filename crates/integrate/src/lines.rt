// The lines that the program prints, each at the front of `out`: their bytes are promised (specs/Lines), so that they are put here and not
// formatted.
ghost use Rattle.std.specs.Prelude.{◌≡◌, ◌++◌, ◌+◌, ◌≤◌, length, take};
ghost use Rattle.integrate.specs.Lines.{decimal_of, double_of, line_of, refusal_of, text_of};

use accumulator::Summary;
use answers::bits;
use feed::Refused;

// Bytes from a place on; and the place behind them.
fn put_bytes(bytes: &[u8], out: &mut [u8], from: usize) -> usize
    requires { from + length bytes.now ≤ length out.old }
    ensures { (result ≡ from + length bytes.now) × (take result out.new ≡ take from out.old ++ bytes.now) }
{
    let end = from + bytes.len();
    out[from..end].copy_from_slice(bytes);
    end
}

// A number in decimal.
fn put_decimal(n: u64, out: &mut [u8], from: usize) -> usize
    requires { from + 20 ≤ length out.old }
    ensures { (result ≤ from + 20) × (take result out.new ≡ take from out.old ++ decimal_of n) }
{
    let mut digits = [0u8; 20];
    let many = io::decimal(n, &mut digits);
    put_bytes(&digits[..many], out, from)
}

// A blank, and the bits of a double.
fn put_double(x: f64, out: &mut [u8], from: usize) -> usize
    requires { from + 17 ≤ length out.old }
    ensures { (result ≡ from + 17) × (take result out.new ≡ take from out.old ++ double_of x) }
{
    let mut digits = [0u8; 16];
    let many = io::hex(bits(x), 16, &mut digits);
    let blank = put_bytes(b" ", out, from);
    put_bytes(&digits[..many], out, blank)
}

// The line of an update; and its length.
fn put_line(s: Summary, out: &mut [u8]) -> usize
    requires { 93 ≤ length out.old }
    ensures { (result ≤ 93) × (take result out.new ≡ line_of s) }
{
    let iterations = put_decimal(s.iterations, out, 0);
    let blank = put_bytes(b" ", out, iterations);
    let samples = put_decimal(s.samples, out, blank);
    let average = put_double(s.average, out, samples);
    let error = put_double(s.error, out, average);
    let chi_squared = put_double(s.chi_squared, out, error);
    put_bytes(b"\n", out, chi_squared)
}

// The line of a refusal; and its length.
fn put_refusal(number: u64, offset: u64, out: &mut [u8]) -> usize
    requires { 93 ≤ length out.old }
    ensures { (result ≤ 93) × (take result out.new ≡ refusal_of number offset) }
{
    let refused = put_bytes(b"refused ", out, 0);
    let numbered = put_decimal(number, out, refused);
    let at = put_bytes(b" at ", out, numbered);
    let placed = put_decimal(offset, out, at);
    put_bytes(b"\n", out, placed)
}

// What a turn tells; and its length.
#[tactic(auto, unfolding(crate::specs::Lines::text_of))]
pub fn put_told(told: Result<Option<Summary>, Refused>, out: &mut [u8]) -> usize
    requires { 93 ≤ length out.old }
    ensures { (result ≤ 93) × (take result out.new ≡ text_of told) }
{
    match told {
        Ok(None) => 0,
        Ok(Some(s)) => put_line(s, out),
        Err(refused) => put_refusal(refused.why.number(), refused.offset, out),
    }
}
