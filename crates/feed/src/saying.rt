// The answers that turns give.
ghost use Rattle.std.specs.Prelude.{◌≡◌};
ghost use Rattle.doubles.specs.Refusal.{number_of};
ghost use Rattle.feed.specs.Said.{said, over_of, waiting, ending, going, telling, refusing_at, refusing};

use crate::{Phase, Refused, Run, Turned};
use accumulator::Summary;
use doubles::Refusal;
use stream::MonteCarloRng;

// Nothing is due any more.
#[tactic(auto, unfolding(crate::specs::Said::over_of))]
fn over(run: Run) -> Run
    ensures { result ≡ over_of run }
{
    Run {
        phase: Phase::Over,
        ..run
    }
}

// Nothing taken, nothing told.
#[tactic(auto, unfolding(crate::specs::Said::paper_told, crate::specs::Said::waiting))]
pub fn waits(run: Run) -> Turned
    ensures { said result ≡ waiting run }
{
    Turned {
        run,
        taken: 0,
        told: Ok(None),
    }
}

// The end.
#[tactic(auto, unfolding(crate::specs::Said::ending))]
pub fn ends(run: Run) -> Turned
    ensures { said result ≡ ending run }
{
    waits(over(run))
}

// What is due then, the stream, and so many samples and bytes taken. The sums are those of words; a number past 2^53 is refused long
// before one wraps.
#[tactic(auto, unfolding(crate::specs::Said::paper_told, crate::specs::Said::going, stream::specs::Words::plus))]
pub fn goes_on(
    run: Run,
    phase: Phase,
    stream: MonteCarloRng,
    samples: usize,
    taken: usize,
) -> Turned
    ensures { said result ≡ going run phase stream samples taken }
{
    let number = run.number.wrapping_add(samples as u64);
    let at = run.at.wrapping_add(taken as u64);
    Turned {
        run: Run {
            phase,
            stream,
            number,
            at,
        },
        taken,
        told: Ok(None),
    }
}

// A line behind what was taken.
#[tactic(auto, unfolding(crate::specs::Said::paper_told, crate::specs::Said::telling))]
pub fn tells(turned: Turned, line: Summary) -> Turned
    ensures { said result ≡ telling (said turned) line }
{
    Turned {
        told: Ok(Some(line)),
        ..turned
    }
}

// A refusal behind what was taken, and the end.
#[tactic(auto, unfolding(crate::specs::Said::paper_told, crate::specs::Said::refusing_at))]
pub fn refuses(turned: Turned, why: Refusal, offset: u64) -> Turned
    ensures { said result ≡ refusing_at (said turned) (number_of why) offset }
{
    Turned {
        run: over(turned.run),
        told: Err(Refused { why, offset }),
        ..turned
    }
}

// A refusal of the field that is due, of which nothing is taken, and the end.
#[tactic(auto, using(std::proofs::lemmas::Bool::Decides::nat_tests), unfolding(crate::specs::Said::refusing, crate::specs::Said::waiting))]
pub fn refuses_due(run: Run, why: Refusal) -> Turned
    ensures { said result ≡ refusing (waiting run) (number_of why) }
{
    refuses(waits(run), why, run.at)
}
