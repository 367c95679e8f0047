// The tests of a record.
ghost use Rattle.std.specs.Prelude.{◌≡◌};
ghost use Rattle.accumulator.specs.Record.{finite_sums, bounded_counts, well_formed};

use crate::StatisticsAccumulator;

// Whether the kept sums are finite. A number less itself is 0, or a NaN where it is not finite, so that one comparison
// judges all four, which is cheaper than four tests on the way of every sample; and `<=` is one jump where `==` is two.
pub fn has_finite_sums(a: StatisticsAccumulator) -> bool
    ensures { result ≡ finite_sums a }
{
    ((a.sum - a.sum) + (a.sum_sq - a.sum_sq))
        + ((a.total_sum - a.total_sum) + (a.total_sum_sq - a.total_sum_sq))
        <= 0.0
}

// Whether no count is above 2^53.
pub fn has_bounded_counts(a: StatisticsAccumulator) -> bool
    ensures { result ≡ bounded_counts a }
{
    (a.new_samples <= 9007199254740992)
        & (a.new_zero_evaluations <= 9007199254740992)
        & (a.cur_iter <= 9007199254740992)
        & (a.processed_samples <= 9007199254740992)
        & (a.num_zero_evaluations <= 9007199254740992)
}

// Whether the record is well formed.
pub fn is_well_formed(a: StatisticsAccumulator) -> bool
    ensures { result ≡ well_formed a }
{
    has_finite_sums(a) & has_bounded_counts(a)
}
