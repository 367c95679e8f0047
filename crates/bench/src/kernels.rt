// The kernels of doubles, on the words of new(0, 0): the exclusive or of what they give, in bits.
use answers::{bits, double};
use stream::MonteCarloRng;

// A kernel on any pattern whose sign is plus: subnormals, infinity and NaN among them.
fn each<Kernel: Fn(f64) -> f64>(count: u64, kernel: Kernel) -> u64
    requires { Kernel.IsAlwaysCallable kernel }
{
    let mut stream = MonteCarloRng::seed_from_u64(0);
    let mut xor: u64 = 0;
    for _ in 0..count {
        let word = stream.next_u64();
        xor = xor ^ bits(kernel(double(word.value / 2)));
        stream = word.stream;
    }
    xor
}

// Roots.
pub fn rooted(count: u64) -> u64 {
    each(count, |x| real::sqrt(x))
}

// Logarithms of the same patterns.
pub fn logged(count: u64) -> u64 {
    each(count, |x| real::ln(x))
}

// Unit draws to the power 1.5.
pub fn raised(count: u64) -> u64 {
    let mut stream = MonteCarloRng::seed_from_u64(0);
    let mut xor: u64 = 0;
    for _ in 0..count {
        let unit = stream.unit();
        xor = xor ^ bits(real::power(unit.value, 1.5));
        stream = unit.stream;
    }
    xor
}
