// Draws and trainings on a state that was judged once: a trained state is well formed again.
ghost use Rattle.std.specs.Prelude.{◌≡◌};
ghost use Rattle.lent.specs.Memory.{memory};
ghost use Rattle.lent.specs.State.{state_fault};
ghost use Rattle.lent.specs.Batched.{step_said, step_of, said, batch_end, steps_of};

use crate::{absorbing, sampling};
use doubles::Refusal;
use lent::{Batched, Lent, Sample};
use stream::MonteCarloRng;

// Draws a sample and trains it: what is drawn has the grid's form. Refused, nothing is written, and the caller goes on with the stream it has.
// The sample is drawn into one that is lent, whatever it holds: made here it would be filled with zeros for every draw.
fn step(
    table: &[u64],
    reals: &mut [f64],
    counts: &mut [u64],
    start: MonteCarloRng,
    evaluation: f64,
    number: u64,
    s: &mut Sample,
) -> Result<MonteCarloRng, Refusal>
    requires { state_fault table.now reals.old counts.old ≡ 0 }
    ensures { step_said start result (memory reals.new counts.new) ≡
        step_of table.now (memory reals.old counts.old) start evaluation number }
{
    let mut spots = [0usize; 8];
    let m = Lent {
        table,
        reals,
        counts,
    };
    let stream = sampling::draw_root(m, start, s, &mut spots);
    absorbing::admit(
        table,
        reals,
        counts,
        s,
        evaluation,
        number,
        &mut spots,
        Ok(()),
    )?;
    Ok(stream)
}

// The evaluations in order, up to the first refusal. The number goes on beside the place: a range from the first on would have no end to show.
pub fn steps(
    table: &[u64],
    reals: &mut [f64],
    counts: &mut [u64],
    start: MonteCarloRng,
    evaluations: &[f64],
    first: u64,
) -> Batched
    requires { state_fault table.now reals.old counts.old ≡ 0 }
    ensures { batch_end (said result) (memory reals.new counts.new) ≡
        steps_of table.now evaluations.now (memory reals.old counts.old) start first 0 }
{
    let mut sample = sampling::empty_sample();
    let mut stream = start;
    let mut number = first;
    for (done, evaluation) in evaluations.iter().enumerate() {
        match step(
            table,
            reals,
            counts,
            stream,
            *evaluation,
            number,
            &mut sample,
        ) {
            Ok(after) => stream = after,
            Err(why) => {
                return Batched {
                    end: Err(why),
                    done,
                    stream,
                };
            }
        }
        number += 1;
    }
    Batched {
        end: Ok(()),
        done: evaluations.len(),
        stream,
    }
}
