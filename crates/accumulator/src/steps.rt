// The Rust's steps on a record whose counts are within their bound. Only the end of an iteration is judged here; else the calls judge. A caller's
// record may hold any counts (12 says so), so that the bound is a clause here and no invariant of the record.
ghost use Rattle.std.specs.Prelude.{◌≡◌, true, false, cond, Float};
ghost use Rattle.doubles.specs.Refusal.{fault_of, paper};
ghost use Rattle.accumulator.specs.Record.{bounded_counts, well_formed};
ghost use Rattle.accumulator.specs.Steps.{zero_count, replaced, added_of, merged_of, cleared_of, copied_of};
ghost use Rattle.accumulator.specs.Update.{variance_from, weight_of, figures_of, figures_for, without_of, gathered_of, course_of, settled_of, iterated_of, processed_of, enough, updated_of};
ghost use Rattle.accumulator.specs.Calls.{estimates_of};
ghost use Rattle.accumulator.specs.Ended.{Plain, tallied_of, refusal_of, ended_of};

use crate::judge::is_well_formed;
use crate::{Estimate, StatisticsAccumulator};
use doubles::Refusal;

// One of two values.
pub fn either<T: Copy>(first: bool, a: T, b: T) -> T
    ensures { result ≡ cond first a b }
{
    if first { a } else { b }
}

// 1 for a zero evaluation.
pub fn zero_count(eval: f64) -> u64
    ensures { result ≡ zero_count eval }
{
    u64::from(eval == 0.0)
}

// Whether an extreme gives way: no sample holds it, or it is beaten.
pub fn is_replaced(number: u64, beaten: bool) -> bool
    ensures { result ≡ replaced number beaten }
{
    (number == 0) | beaten
}

// The record with one evaluation more. Most replace no extreme, and are done after four tests, each a jump of its own. The
// tests are put together otherwise than by `is_replaced`, whose two answers would else be worked out for every sample.
pub fn added(a: StatisticsAccumulator, eval: f64, number: u64) -> StatisticsAccumulator
    requires { bounded_counts a ≡ true }
    ensures { result ≡ added_of a eval number }
{
    let mut r = a;
    r.sum = a.sum + eval;
    r.sum_sq = a.sum_sq + eval * eval;
    r.new_samples = a.new_samples + 1;
    r.new_zero_evaluations = a.new_zero_evaluations + zero_count(eval);
    let fresh = (a.max_eval_positive_number == 0) | (a.max_eval_negative_number == 0);
    let beyond = (a.max_eval_positive < eval) | (eval < a.max_eval_negative);
    if !(fresh | beyond) {
        return r;
    }
    let high = is_replaced(a.max_eval_positive_number, a.max_eval_positive < eval);
    let low = is_replaced(a.max_eval_negative_number, eval < a.max_eval_negative);
    r.max_eval_positive = either(high, eval, a.max_eval_positive);
    r.max_eval_positive_number = either(high, number, a.max_eval_positive_number);
    r.max_eval_negative = either(low, eval, a.max_eval_negative);
    r.max_eval_negative_number = either(low, number, a.max_eval_negative_number);
    r
}

// The record with the other's waiting samples.
pub fn merged(a: StatisticsAccumulator, b: StatisticsAccumulator) -> StatisticsAccumulator
    requires { (bounded_counts a ≡ true) × (bounded_counts b ≡ true) }
    ensures { result ≡ merged_of a b }
{
    let high = a.max_eval_positive < b.max_eval_positive;
    let low = b.max_eval_negative < a.max_eval_negative;
    let mut r = a;
    r.sum = a.sum + b.sum;
    r.sum_sq = a.sum_sq + b.sum_sq;
    r.new_samples = a.new_samples + b.new_samples;
    r.new_zero_evaluations = a.new_zero_evaluations + b.new_zero_evaluations;
    r.max_eval_positive = either(high, b.max_eval_positive, a.max_eval_positive);
    r.max_eval_positive_number = either(
        high,
        b.max_eval_positive_number,
        a.max_eval_positive_number,
    );
    r.max_eval_negative = either(low, b.max_eval_negative, a.max_eval_negative);
    r.max_eval_negative_number = either(
        low,
        b.max_eval_negative_number,
        a.max_eval_negative_number,
    );
    r
}

// The record with nothing waiting.
pub fn cleared(a: StatisticsAccumulator) -> StatisticsAccumulator
    ensures { result ≡ cleared_of a }
{
    let mut r = a;
    r.sum = 0.0;
    r.sum_sq = 0.0;
    r.new_samples = 0;
    r.new_zero_evaluations = 0;
    r
}

// The record without the extremes' samples.
pub fn copied(a: StatisticsAccumulator) -> StatisticsAccumulator
    ensures { result ≡ copied_of a }
{
    let mut r = a;
    r.max_eval_positive_number = 0;
    r.max_eval_negative_number = 0;
    r
}

// What an iteration comes to: its samples' mean and weight; the plain mean of all samples, 0 where the mean is weighted; the error, and the
// weighted mean's variance. Without at least two samples all are 0.
#[derive(Clone, Copy)]
pub struct Figures {
    pub mean: f64,
    pub weight: f64,
    pub avg: f64,
    pub err: f64,
    pub sigma: f64,
}

// The variance of a mean, from the root of the mean square, with no clamp: rounding may take it below zero.
fn variance(mean: f64, root: f64, n: f64) -> f64
    ensures { result ≡ variance_from mean root n }
{
    ((root + mean) * (root - mean)) / (n - 1.0)
}

// An iteration's weight; where all samples are the same, a large number.
fn weight(variance: f64) -> f64
    ensures { result ≡ weight_of variance }
{
    if variance == 0.0 {
        return 18446744073709551616.0;
    }
    plain::inv(variance)
}

// No figures.
fn without() -> Figures
    ensures { result ≡ without_of }
{
    Figures {
        mean: 0.0,
        weight: 0.0,
        avg: 0.0,
        err: 0.0,
        sigma: 0.0,
    }
}

// The figures of an iteration's n samples, after iterations of this weight in all, for a weighted mean, whose error is the root of its
// variance. It and the plain mean's are two functions, so that neither waits for what the other needs.
fn figured_weighted(sum: f64, sum_sq: f64, n: f64, weight_sum: f64) -> Figures
    ensures { (total squares all : Float) → result ≡ figures_of true sum sum_sq n total squares all weight_sum }
{
    let mean = sum / n;
    let weight = weight(variance(mean, root::sqrt(sum_sq / n), n));
    let sigma = plain::inv(weight_sum + weight);
    let err = root::sqrt(sigma);
    Figures {
        mean,
        weight,
        avg: 0.0,
        err,
        sigma,
    }
}

// The same for the plain mean, whose error is that of all samples. The two roots that wait for nothing are taken first, so that the
// processor works on both at once.
fn figured_plain(
    sum: f64,
    sum_sq: f64,
    n: f64,
    total: f64,
    total_sq: f64,
    all: f64,
    weight_sum: f64,
) -> Figures
    ensures { result ≡ figures_of false sum sum_sq n total total_sq all weight_sum }
{
    let root = root::sqrt(sum_sq / n);
    let root_of_all = root::sqrt(total_sq / all);
    let mean = sum / n;
    let avg = total / all;
    let weight = weight(variance(mean, root, n));
    let sigma = plain::inv(weight_sum + weight);
    let err = root::sqrt(variance(avg, root_of_all, all));
    Figures {
        mean,
        weight,
        avg,
        err,
        sigma,
    }
}

// The record with its waiting samples among the processed ones, and one iteration on; its estimates stay.
pub fn gathered(a: StatisticsAccumulator) -> StatisticsAccumulator
    requires { bounded_counts a ≡ true }
    ensures { result ≡ gathered_of a }
{
    let mut r = cleared(a);
    r.processed_samples = a.processed_samples + a.new_samples;
    r.num_zero_evaluations = a.num_zero_evaluations + a.new_zero_evaluations;
    r.cur_iter = a.cur_iter + 1;
    r.total_sum = a.total_sum + a.sum;
    r.total_sum_sq = a.total_sum_sq + a.sum_sq;
    r
}

// The record after an iteration but for its estimates, which no judge looks at.
fn moved(a: StatisticsAccumulator) -> StatisticsAccumulator
    requires { bounded_counts a ≡ true }
    ensures { well_formed result ≡ well_formed (updated_of false a) }
{
    if a.new_samples < 2 {
        let mut r = a;
        r.cur_iter = a.cur_iter + 1;
        return r;
    }
    gathered(a)
}

// Whether the record's iteration may end.
fn may_end(a: StatisticsAccumulator) -> Result<(), Refusal>
    ensures { fault_of result ≡ refusal_of a }
{
    if !is_well_formed(a) {
        return Err(Refusal::State);
    }
    if !is_well_formed(moved(a)) {
        return Err(Refusal::Overflow);
    }
    Ok(())
}

// Whether an iteration may end for plain reasons: no count is near its bound, and the sums are finite afterwards, so that they were so
// before.
fn is_plain(
    n: u64,
    zeros: u64,
    processed: u64,
    num_zeros: u64,
    iterations: u64,
    total: f64,
    total_sq: f64,
) -> bool
    ensures { result ≡ true → Plain n zeros processed num_zeros iterations total total_sq }
{
    (n < 4503599627370496)
        & (zeros < 4503599627370496)
        & (processed < 4503599627370496)
        & (num_zeros < 4503599627370496)
        & (iterations < 4503599627370496)
        & ((total - total) + (total_sq - total_sq) <= 0.0)
}

// The record's sums and counts alone.
fn tallied(
    sum: f64,
    n: u64,
    sum_sq: f64,
    zeros: u64,
    total: f64,
    processed: u64,
    total_sq: f64,
    num_zeros: u64,
    weight_sum: f64,
    iterations: u64,
) -> StatisticsAccumulator
    ensures { result ≡ tallied_of sum n sum_sq zeros total processed total_sq num_zeros weight_sum iterations }
{
    let mut r = StatisticsAccumulator::new();
    r.sum = sum;
    r.new_samples = n;
    r.sum_sq = sum_sq;
    r.new_zero_evaluations = zeros;
    r.total_sum = total;
    r.processed_samples = processed;
    r.total_sum_sq = total_sq;
    r.num_zero_evaluations = num_zeros;
    r.weight_sum = weight_sum;
    r.cur_iter = iterations;
    r
}

// Why an iteration with these sums and counts may not end, and what it comes to. An update names this function
// twice and a live estimate once, so that it stays a call. It is handed numbers and hands numbers on: the calls around it stay small, and
// what a record keeps need not pass through memory.
pub fn figures_of(
    weighted: bool,
    sum: f64,
    n: u64,
    sum_sq: f64,
    zeros: u64,
    total: f64,
    processed: u64,
    total_sq: f64,
    num_zeros: u64,
    weight_sum: f64,
    iterations: u64,
) -> Result<Figures, Refusal>
    ensures { paper result ≡ ended_of weighted (tallied_of sum n sum_sq zeros total processed total_sq num_zeros weight_sum iterations) }
{
    let t = total + sum;
    let q = total_sq + sum_sq;
    if !is_plain(n, zeros, processed, num_zeros, iterations, t, q) {
        may_end(tallied(
            sum, n, sum_sq, zeros, total, processed, total_sq, num_zeros, weight_sum, iterations,
        ))?;
    }
    if n < 2 {
        return Ok(without());
    }
    let waiting = n as f64;
    if weighted {
        return Ok(figured_weighted(sum, sum_sq, waiting, weight_sum));
    }
    let all = (processed as f64) + waiting;
    Ok(figured_plain(sum, sum_sq, waiting, t, q, all, weight_sum))
}

// What the iterations so far come to: their weighted sums, and the mean of the first.
#[derive(Clone, Copy)]
struct Course {
    weight_sum: f64,
    avg_sum: f64,
    chi_sum: f64,
    chi_sq_sum: f64,
    guess: f64,
}

// The course that a record keeps.
fn course_of(a: StatisticsAccumulator) -> Course
    ensures { result ≡ course_of a }
{
    Course {
        weight_sum: a.weight_sum,
        avg_sum: a.avg_sum,
        chi_sum: a.chi_sum,
        chi_sq_sum: a.chi_sq_sum,
        guess: a.guess,
    }
}

// The course with an iteration's figures in its sums; the first iteration's mean is the guess.
fn settled(c: Course, f: Figures, first: bool) -> Course
    ensures { result ≡ settled_of c f first }
{
    let guess = either(first, f.mean, c.guess);
    let off = f.weight * (f.mean - guess);
    Course {
        weight_sum: c.weight_sum + f.weight,
        avg_sum: c.avg_sum + f.weight * f.mean,
        chi_sum: c.chi_sum + off,
        chi_sq_sum: c.chi_sq_sum + off * f.mean,
        guess,
    }
}

// A course, and the estimates at its end.
#[derive(Clone, Copy)]
struct Iterated {
    course: Course,
    estimate: Estimate,
}

// The course after an iteration with these figures, and the estimates then.
fn iterate(weighted: bool, first: bool, f: Figures, c: Course) -> Iterated
    ensures { result ≡ iterated_of weighted first f c }
{
    let after = settled(c, f, first);
    let weighted_avg = f.sigma * after.avg_sum;
    let avg = either(weighted, weighted_avg, f.avg);
    let err = f.err;
    let chi_sq = after.chi_sq_sum - weighted_avg * after.chi_sum;
    Iterated {
        course: after,
        estimate: Estimate { avg, err, chi_sq },
    }
}

// The record with its waiting samples processed, and the estimates after them, from the iteration's figures.
fn processed(weighted: bool, a: StatisticsAccumulator, f: Figures) -> StatisticsAccumulator
    requires { (bounded_counts a ≡ true) × (f ≡ figures_for weighted a) }
    ensures { result ≡ processed_of weighted a }
{
    let mut r = gathered(a);
    let e = iterate(weighted, a.cur_iter == 0, f, course_of(a));
    r.weight_sum = e.course.weight_sum;
    r.avg_sum = e.course.avg_sum;
    r.chi_sum = e.course.chi_sum;
    r.chi_sq_sum = e.course.chi_sq_sum;
    r.guess = e.course.guess;
    r.avg = e.estimate.avg;
    r.err = e.estimate.err;
    r.chi_sq = e.estimate.chi_sq;
    r
}

// The record after an iteration with these figures; fewer than two waiting samples go on waiting.
pub fn updated(weighted: bool, a: StatisticsAccumulator, f: Figures) -> StatisticsAccumulator
    requires { (bounded_counts a ≡ true) × (enough a ≡ true → f ≡ figures_for weighted a) }
    ensures { result ≡ updated_of weighted a }
{
    if a.new_samples < 2 {
        let mut r = a;
        r.cur_iter = a.cur_iter + 1;
        return r;
    }
    processed(weighted, a, f)
}

// The estimates after an iteration with the plain average and these figures, without the record that it would leave.
pub fn live(a: StatisticsAccumulator, f: Figures) -> Estimate
    requires { enough a ≡ true → f ≡ figures_for false a }
    ensures { result ≡ estimates_of (updated_of false a) }
{
    if a.new_samples < 2 {
        return Estimate {
            avg: a.avg,
            err: a.err,
            chi_sq: a.chi_sq,
        };
    }
    let e = iterate(false, a.cur_iter == 0, f, course_of(a));
    e.estimate
}
