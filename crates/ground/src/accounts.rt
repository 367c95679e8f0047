// The accumulators of grids and of their bins: each is 14 reals and 7 counts of lent memory, worked on as a record.
//
// Its place is two numbers, r and c, here and in the crates above: they are cells of the table or sums from them, each with other sums of
// its own, and the definitions name them. A struct of the two would be made at each call and taken apart in each promise.
ghost use Rattle.std.specs.Prelude.{◌≡◌};
ghost use Rattle.std.specs.Float.{nan};
ghost use Rattle.lent.specs.Memory.{memory, from_on, record_at, stored};
ghost use Rattle.lent.specs.Cleared.{cleared_at};

use crate::parts;
use accumulator::StatisticsAccumulator;

// The N entries from a place on; past the last entry a value in their stead.
fn from_on<T: Copy, const N: usize>(entries: &[T], at: usize, missing: T) -> [T; N]
    ensures { result ≡ from_on N missing at entries.now }
{
    let mut x = [missing; N];
    if at < entries.len() {
        parts::set(&mut x, 0, &entries[at..]);
    }
    x
}

// The record whose reals begin at r and whose counts begin at c; past the ends of memory are NaN and 0.
pub fn load(reals: &[f64], counts: &[u64], r: usize, c: usize) -> StatisticsAccumulator
    ensures { result ≡ record_at reals.now counts.now r c }
{
    let x: [f64; 14] = from_on(reals, r, f64::NAN);
    let n: [u64; 7] = from_on(counts, c, 0);
    StatisticsAccumulator {
        sum: x[0],
        sum_sq: x[1],
        total_sum: x[2],
        total_sum_sq: x[3],
        weight_sum: x[4],
        avg_sum: x[5],
        avg: x[6],
        err: x[7],
        guess: x[8],
        chi_sq: x[9],
        chi_sum: x[10],
        chi_sq_sum: x[11],
        new_samples: n[0],
        new_zero_evaluations: n[1],
        cur_iter: n[2],
        processed_samples: n[3],
        max_eval_positive: x[12],
        max_eval_positive_number: n[4],
        max_eval_negative: x[13],
        max_eval_negative_number: n[5],
        num_zero_evaluations: n[6],
    }
}

// The record laid at r and c, as far as there is room.
pub fn store(reals: &mut [f64], counts: &mut [u64], r: usize, c: usize, a: StatisticsAccumulator)
    ensures { memory reals.new counts.new ≡ stored r c a (memory reals.old counts.old) }
{
    let x = [
        a.sum,
        a.sum_sq,
        a.total_sum,
        a.total_sum_sq,
        a.weight_sum,
        a.avg_sum,
        a.avg,
        a.err,
        a.guess,
        a.chi_sq,
        a.chi_sum,
        a.chi_sq_sum,
        a.max_eval_positive,
        a.max_eval_negative,
    ];
    let n = [
        a.new_samples,
        a.new_zero_evaluations,
        a.cur_iter,
        a.processed_samples,
        a.max_eval_positive_number,
        a.max_eval_negative_number,
        a.num_zero_evaluations,
    ];
    parts::set(reals, r, &x);
    parts::set(counts, c, &n);
}

// Nothing waits in the record at r and c.
pub fn clear(reals: &mut [f64], counts: &mut [u64], r: usize, c: usize)
    ensures { memory reals.new counts.new ≡ cleared_at r c (memory reals.old counts.old) }
{
    let x = [0.0; 2];
    let n = [0; 2];
    parts::set(reals, r, &x);
    parts::set(counts, c, &n);
}
