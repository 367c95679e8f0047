// What becomes of an axis's importances before its edges are cut: divided by the counts, smoothed, damped.
ghost use Rattle.std.specs.Prelude.{◌≡◌, length};
ghost use Rattle.doubles.specs.Numbers.{zero64};
ghost use Rattle.doubles.specs.Total.{total_of};
ghost use Rattle.recut.specs.Weights.{per_count, normalised, smoothed, damp_share, damp_one, damped};

use crate::each;

// The size of an importance, divided by its count where that is above 0.
fn per_count(importance: f64, counter: u64) -> f64
    ensures { result ≡ per_count importance counter }
{
    let size = plain::norm(importance);
    if 0 < counter {
        return size / plain::count(counter);
    }
    size
}

// Every importance's size per count.
pub fn normalise(importances: &mut [f64], counters: &[u64])
    requires { length counters.now ≡ length importances.old }
    ensures { importances.new ≡ normalised importances.old counters.now }
{
    each::pair(importances, counters, per_count);
}

// Each importance with its neighbours, as they were before: three parts of four at the ends, six of eight between.
pub fn smoothen(importances: &mut [f64])
    ensures { importances.new ≡ smoothed importances.old }
{
    let n = importances.len();
    if n < 2 {
        return;
    }
    let mut prev = importances[0];
    let mut cur = importances[1];
    importances[0] = (3.0 * prev + cur) / 4.0;
    for bin in 1..n - 1 {
        let s = prev + cur * 6.0;
        prev = cur;
        cur = importances[bin + 1];
        importances[bin] = (s + cur) / 8.0;
    }
    importances[n - 1] = (prev + 3.0 * cur) / 4.0;
}

// The sum from left to right.
pub fn total(importances: &[f64]) -> f64
    ensures { result ≡ total_of zero64 importances.now }
{
    let mut sum = 0.0;
    for x in importances {
        sum = sum + *x;
    }
    sum
}

// ((share - 1) / ln share)^rate, and 0 for a share that is zero.
fn damp_share(share: f64, rate: f64) -> f64
    ensures { result ≡ damp_share share rate }
{
    if share == 0.0 {
        return 0.0;
    }
    real::power((share - 1.0) / real::ln(share), rate)
}

// One importance damped by its share of the total.
fn damp_one(importance: f64, total: f64, rate: f64) -> f64
    ensures { result ≡ damp_one total rate importance }
{
    if importance == total {
        return 1.0;
    }
    if importance == 0.0 {
        return 0.0;
    }
    damp_share(importance / total, rate)
}

// Every importance damped.
pub fn damp(importances: &mut [f64], total: f64, rate: f64)
    ensures { importances.new ≡ damped total rate importances.old }
{
    each::map(importances, |x| damp_one(x, total, rate));
}
