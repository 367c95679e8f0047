// A value joins an accumulator in lent memory, whose place is two numbers, as in ground's `accounts`. It is accumulator's `added` on the eight
// cells that a sample changes: to load and store whole records at each sample would be slower.
ghost use Rattle.std.specs.Prelude.{◌≡◌, true, ◌+◌, ◌≤◌, length};
ghost use Rattle.accumulator.specs.Record.{well_formed};
ghost use Rattle.accumulator.specs.Steps.{added_of};
ghost use Rattle.model.specs.Train.{numbered};
ghost use Rattle.lent.specs.Memory.{memory, record_at};
ghost use Rattle.lent.specs.Absorbed.{gain_at, gained};

use crate::reading::{count_at, real_at};
use crate::training;
use accumulator::{either, is_replaced, zero_count};
use lent::Gain;

// Whether the record at r and c may be kept once v has joined it: of a well-formed one only what changes is asked.
pub fn fits_with(reals: &[f64], counts: &[u64], r: usize, c: usize, v: f64, number: u64) -> bool
    requires { (r + 14 ≤ length reals.now) × (c + 7 ≤ length counts.now) × (well_formed (record_at reals.now counts.now r c) ≡ true) × (numbered number ≡ true) }
    ensures { result ≡ well_formed (added_of (record_at reals.now counts.now r c) v number) }
{
    let sum = real_at(reals, r) + v;
    let squares = real_at(reals, r + 1) + v * v;
    let waiting = count_at(counts, c) + 1;
    let zeros = count_at(counts, c + 1) + zero_count(v);
    (training::are_sums_finite(sum, squares) & (waiting <= 9007199254740992))
        & (zeros <= 9007199254740992)
}

// What v leaves in the record at r and c, where it changes it.
pub fn gain_at(reals: &[f64], counts: &[u64], r: usize, c: usize, v: f64, number: u64) -> Gain
    requires { (r + 14 ≤ length reals.now) × (c + 7 ≤ length counts.now) × (well_formed (record_at reals.now counts.now r c) ≡ true) }
    ensures { result ≡ gain_at r c v number (memory reals.now counts.now) }
{
    let highest = real_at(reals, r + 12);
    let lowest = real_at(reals, r + 13);
    let highest_number = count_at(counts, c + 4);
    let lowest_number = count_at(counts, c + 5);
    let high = is_replaced(highest_number, highest < v);
    let low = is_replaced(lowest_number, v < lowest);
    let sum = real_at(reals, r) + v;
    let squares = real_at(reals, r + 1) + v * v;
    let waiting = count_at(counts, c) + 1;
    let zeros = count_at(counts, c + 1) + zero_count(v);
    Gain {
        sum,
        sum_sq: squares,
        new_samples: waiting,
        new_zero_evaluations: zeros,
        max_eval_positive: either(high, v, highest),
        max_eval_positive_number: either(high, number, highest_number),
        max_eval_negative: either(low, v, lowest),
        max_eval_negative_number: either(low, number, lowest_number),
    }
}

// These values in the record at r and c; the rest of it stays.
pub fn put(reals: &mut [f64], counts: &mut [u64], r: usize, c: usize, g: Gain)
    requires { (r + 14 ≤ length reals.old) × (c + 7 ≤ length counts.old) }
    ensures { memory reals.new counts.new ≡ gained r c g (memory reals.old counts.old) }
{
    reals[r] = g.sum;
    reals[r + 1] = g.sum_sq;
    reals[r + 12] = g.max_eval_positive;
    reals[r + 13] = g.max_eval_negative;
    counts[c] = g.new_samples;
    counts[c + 1] = g.new_zero_evaluations;
    counts[c + 4] = g.max_eval_positive_number;
    counts[c + 5] = g.max_eval_negative_number;
}
