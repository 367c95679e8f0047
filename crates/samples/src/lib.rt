// Draws and trainings: a sample drawn from a grid in lent memory, a sample that joins it with its evaluation, and both in a batch.
#![tactic(auto)]

mod absorbing;
mod acceptance;
mod adding;
mod axes;
mod batching;
mod forms;
mod reading;
mod sampling;
mod training;

ghost use Rattle.std.specs.Prelude.{◌≡◌};
ghost use Rattle.doubles.specs.Refusal.{fault_of, paper};
ghost use Rattle.model.specs.Draw.{weight_at};
ghost use Rattle.lent.specs.Calls.{laid_paper, draw_of, state_end, train_call_of};
ghost use Rattle.lent.specs.Batched.{said, batch_end, batch_of};
ghost use Rattle.lent.specs.Memory.{memory};
ghost use Rattle.lent.specs.Sampled.{sample_of};

use doubles::Refusal;
use judges::state;
use lent::{Batched, Drawing, Lent, Sample};
use stream::MonteCarloRng;

// A sample's weight: that of its first level, 1 where it has none.
pub fn weight_of(s: Sample) -> f64
    ensures { result ≡ weight_at (sample_of s).weights }
{
    if s.given == 0 {
        return 1.0;
    }
    s.weights[0]
}

// Draws a sample, and answers it with the stream after it. Refused: 12 for a table that is no plan's, 10 for slices too short for it, 12 for a
// state that is not well formed.
pub fn draw(
    table: &[u64],
    reals: &[f64],
    counts: &[u64],
    start: MonteCarloRng,
) -> Result<Drawing, Refusal>
    ensures { paper result ≡ laid_paper (draw_of table.now reals.now counts.now start) }
{
    state::fault(table, reals, counts)?;
    let mut sample = sampling::empty_sample();
    let mut spots = [0usize; 8];
    let m = Lent {
        table,
        reals,
        counts,
    };
    let stream = sampling::draw_root(m, start, &mut sample, &mut spots);
    Ok(Drawing { sample, stream })
}

// A sample joins the grid with its evaluation and its number. Refused: 12, 10, 12 as in `draw`; 3; 4, 6, 4 at each level of the path; then 4,
// 5; 7; 8. Nothing is written then.
pub fn train(
    table: &[u64],
    reals: &mut [f64],
    counts: &mut [u64],
    s: Sample,
    evaluation: f64,
    number: u64,
) -> Result<(), Refusal>
    ensures { state_end (fault_of result) (memory reals.new counts.new) ≡
        train_call_of table.now (memory reals.old counts.old) s evaluation number }
{
    state::fault(table, reals, counts)?;
    let form = forms::fault_of(
        Lent {
            table,
            reals,
            counts,
        },
        &s,
    );
    let mut spots = [0usize; 8];
    absorbing::admit(
        table, reals, counts, &s, evaluation, number, &mut spots, form,
    )
}

// Draws a sample for each evaluation and trains it, numbered from the first number on; the state is judged once. The answer is that of `draw`
// and `train` one by one, up to the first refusal: 12, 10, 12; then as `train`. What was trained before it stays.
pub fn draw_and_train(
    table: &[u64],
    reals: &mut [f64],
    counts: &mut [u64],
    start: MonteCarloRng,
    evaluations: &[f64],
    first: u64,
) -> Batched
    ensures { batch_end (said result) (memory reals.new counts.new) ≡
        batch_of table.now (memory reals.old counts.old) start evaluations.now first }
{
    match state::fault(table, reals, counts) {
        Ok(()) => batching::steps(table, reals, counts, start, evaluations, first),
        Err(why) => Batched {
            end: Err(why),
            done: 0,
            stream: start,
        },
    }
}
