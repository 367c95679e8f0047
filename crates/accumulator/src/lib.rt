// StatisticsAccumulator: sums of samples, and the average, error and chi-squared over all iterations, as the Rust has them.
//
// One record of doubles and counts, passed and returned by value. Each call judges the record it is given (12) before all
// else, and a refusal is its whole answer.
#![tactic(auto)]

mod judge;
mod steps;

ghost use Rattle.std.specs.Prelude.{◌≡◌, false, ◌&&◌};
ghost use Rattle.doubles.specs.Paper.{refuses};
ghost use Rattle.doubles.specs.Refusal.{number_of, paper};
ghost use Rattle.accumulator.specs.Record.{fresh, well_formed};
ghost use Rattle.accumulator.specs.Steps.{added_of};
ghost use Rattle.accumulator.specs.Calls.{paper_merged, paper_updated, kept_of, numbered, add_sample_of, merge_of, merge_clearing_of, clear_of, copy_of, update_of, live_estimate_of, summarize_of};

use doubles::Refusal;
use judge::{has_bounded_counts, is_well_formed};
pub use steps::{either, is_replaced, zero_count};

// The record. A sample of an extreme is its number, 0 for none, as the document and lent memory have it. Doubles and counts take turns: of two doubles side by side
// the compiler would move both at once, and the processor would wait until each of them, stored alone, is written.
#[derive(Clone, Copy)]
pub struct StatisticsAccumulator {
    pub sum: f64,
    pub new_samples: u64,
    pub sum_sq: f64,
    pub new_zero_evaluations: u64,
    pub total_sum: f64,
    pub processed_samples: u64,
    pub total_sum_sq: f64,
    pub num_zero_evaluations: u64,
    pub weight_sum: f64,
    pub cur_iter: u64,
    pub avg_sum: f64,
    pub max_eval_positive_number: u64,
    pub chi_sum: f64,
    pub max_eval_negative_number: u64,
    pub chi_sq_sum: f64,
    pub avg: f64,
    pub guess: f64,
    pub err: f64,
    pub chi_sq: f64,
    pub max_eval_positive: f64,
    pub max_eval_negative: f64,
}

// Both records after a clearing merge.
#[derive(Clone, Copy)]
pub struct Merged {
    pub after: StatisticsAccumulator,
    pub other: StatisticsAccumulator,
}

// Whether waiting samples were processed, and the record after the update.
#[derive(Clone, Copy)]
pub struct Updated {
    pub processed: bool,
    pub after: StatisticsAccumulator,
}

// Average, error and chi-squared.
#[derive(Clone, Copy)]
pub struct Estimate {
    pub avg: f64,
    pub err: f64,
    pub chi_sq: f64,
}

// Iterations, samples, average, error, chi-squared, and whether the error is zero.
#[derive(Clone, Copy)]
pub struct Summary {
    pub iterations: u64,
    pub samples: u64,
    pub average: f64,
    pub error: f64,
    pub chi_squared: f64,
    pub flat: bool,
}

impl StatisticsAccumulator {
    // A fresh record.
    pub fn new() -> StatisticsAccumulator
        ensures { result ≡ fresh }
    {
        StatisticsAccumulator {
            sum: 0.0,
            new_samples: 0,
            sum_sq: 0.0,
            new_zero_evaluations: 0,
            total_sum: 0.0,
            processed_samples: 0,
            total_sum_sq: 0.0,
            num_zero_evaluations: 0,
            weight_sum: 0.0,
            cur_iter: 0,
            avg_sum: 0.0,
            max_eval_positive_number: 0,
            chi_sum: 0.0,
            max_eval_negative_number: 0,
            chi_sq_sum: 0.0,
            avg: 0.0,
            guess: 0.0,
            err: 0.0,
            chi_sq: 0.0,
            max_eval_positive: 0.0,
            max_eval_negative: 0.0,
        }
    }

    // The record without the extremes' samples. Refused: 12.
    pub fn shallow_copy(self) -> Result<StatisticsAccumulator, Refusal>
        ensures { paper result ≡ copy_of self }
    {
        if !is_well_formed(self) {
            return Err(Refusal::State);
        }
        Ok(steps::copied(self))
    }

    // The record with one evaluation more, of the sample with this number, 0 for none. Refused: 12; 3 for a number above 2^53;
    // 7 for an evaluation that is not finite; 8. Sums that are finite afterwards were so before, and so was the evaluation:
    // a sample that is accepted is judged once, on the record after it.
    pub fn add_sample(self, eval: f64, number: u64) -> Result<StatisticsAccumulator, Refusal>
        ensures { paper result ≡ add_sample_of self eval number }
    {
        if !has_bounded_counts(self) {
            return Err(Refusal::State);
        }
        let after = steps::added(self, eval, number);
        if !is_accepted(number, after) {
            return Err(sample_refusal(self, eval, number));
        }
        Ok(after)
    }

    // The record with the other's waiting samples; the other keeps them. Refused: 12, 8.
    pub fn merge_samples_no_reset(
        self,
        other: StatisticsAccumulator,
    ) -> Result<StatisticsAccumulator, Refusal>
        ensures { paper result ≡ merge_of self other }
    {
        if !is_well_formed(self) {
            return Err(Refusal::State);
        }
        if !is_well_formed(other) {
            return Err(Refusal::State);
        }
        kept(steps::merged(self, other))
    }

    // The record with the other's waiting samples, and the other without them. Refused: 12, 8.
    pub fn merge_samples(self, other: StatisticsAccumulator) -> Result<Merged, Refusal>
        ensures { paper_merged result ≡ merge_clearing_of self other }
    {
        if !is_well_formed(self) {
            return Err(Refusal::State);
        }
        if !is_well_formed(other) {
            return Err(Refusal::State);
        }
        let after = steps::merged(self, other);
        if !is_well_formed(after) {
            return Err(Refusal::Overflow);
        }
        Ok(Merged {
            after,
            other: steps::cleared(other),
        })
    }

    // The record with nothing waiting; its extremes stay. Refused: 12.
    pub fn clear_samples(self) -> Result<StatisticsAccumulator, Refusal>
        ensures { paper result ≡ clear_of self }
    {
        if !is_well_formed(self) {
            return Err(Refusal::State);
        }
        Ok(steps::cleared(self))
    }

    // The record with its waiting samples processed, where there are at least two, and whether they were. Refused: 12, 8. The flag is the Rust's
    // parameter, and so no enum.
    // The two calls are the same, and the compiler makes one of them; but for the second it would take `figures_of` in where nothing else
    // calls it, and leave this function a call (docs/BENCHMARK.md).
    pub fn update_iter(self, weighted_average: bool) -> Result<Updated, Refusal>
        ensures { paper_updated result ≡ update_of weighted_average self }
    {
        let figures = if self.new_samples < 2 {
            steps::figures_of(
                weighted_average,
                self.sum,
                self.new_samples,
                self.sum_sq,
                self.new_zero_evaluations,
                self.total_sum,
                self.processed_samples,
                self.total_sum_sq,
                self.num_zero_evaluations,
                self.weight_sum,
                self.cur_iter,
            )
        } else {
            steps::figures_of(
                weighted_average,
                self.sum,
                self.new_samples,
                self.sum_sq,
                self.new_zero_evaluations,
                self.total_sum,
                self.processed_samples,
                self.total_sum_sq,
                self.num_zero_evaluations,
                self.weight_sum,
                self.cur_iter,
            )
        };
        Ok(Updated {
            processed: 2 <= self.new_samples,
            after: steps::updated(weighted_average, self, figures?),
        })
    }

    // Average, error and chi-squared as if the iteration ended now. Refused: 12, 8.
    pub fn get_live_estimate(self) -> Result<Estimate, Refusal>
        ensures { paper result ≡ live_estimate_of self }
    {
        let figures = steps::figures_of(
            false,
            self.sum,
            self.new_samples,
            self.sum_sq,
            self.new_zero_evaluations,
            self.total_sum,
            self.processed_samples,
            self.total_sum_sq,
            self.num_zero_evaluations,
            self.weight_sum,
            self.cur_iter,
        )?;
        Ok(steps::live(self, figures))
    }

    // Iterations, samples, average, error, chi-squared, and flat, exactly where the error is zero. Refused: 12.
    pub fn summary(self) -> Result<Summary, Refusal>
        ensures { paper result ≡ summarize_of self }
    {
        if !is_well_formed(self) {
            return Err(Refusal::State);
        }
        Ok(Summary {
            iterations: self.cur_iter,
            samples: self.processed_samples,
            average: self.avg,
            error: self.err,
            chi_squared: self.chi_sq,
            flat: self.err == 0.0,
        })
    }
}

// A record that is to be kept: 8 where it would not be well formed.
fn kept(a: StatisticsAccumulator) -> Result<StatisticsAccumulator, Refusal>
    ensures { paper result ≡ kept_of a }
{
    if !is_well_formed(a) {
        return Err(Refusal::Overflow);
    }
    Ok(a)
}

// Whether a sample's number and the record after it are as they have to be.
fn is_accepted(number: u64, after: StatisticsAccumulator) -> bool
    ensures { result ≡ (numbered number && well_formed after) }
{
    (number <= 9007199254740992) & is_well_formed(after)
}

// Why a sample is refused.
fn sample_refusal(a: StatisticsAccumulator, eval: f64, number: u64) -> Refusal
    requires { (numbered number && well_formed (added_of a eval number)) ≡ false }
    ensures { refuses (number_of result) ≡ add_sample_of a eval number }
{
    if !is_well_formed(a) {
        return Refusal::State;
    }
    if 9007199254740992 < number {
        return Refusal::Range;
    }
    if !plain::finite(eval) {
        return Refusal::Infinite;
    }
    Refusal::Overflow
}
