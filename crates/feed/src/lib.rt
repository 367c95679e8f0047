// The integration as a call: a plan, a stream, then samples and updates, field by field.
//
// A run is a value that says what is due. A turn takes what is due from the front of some bytes, and the caller gives the rest
// again, with more behind it. Each call's promise is an equation with its definition in specs/.
#![tactic(auto)]

mod fields;
mod numbers;
mod planning;
mod saying;
mod training;
mod turns;
mod updating;

ghost use Rattle.std.specs.Prelude.{◌≡◌, ◌≤◌, length};
ghost use Rattle.lent.specs.Memory.{memory};
ghost use Rattle.feed.specs.Said.{said, beginning_of, is_over_of};
ghost use Rattle.feed.specs.Turns.{turn_end, turn_of};

use accumulator::Summary;
use doubles::Refusal;
use stream::MonteCarloRng;

// What is due next: the plan, the stream's field, samples and updates, or nothing any more.
#[derive(Clone, Copy, Debug, PartialEq, Eq)]
pub enum Phase {
    Plan,
    Stream,
    Samples,
    Over,
}

// What is due, the stream, the next sample's number, and the offset of the next field.
#[derive(Clone, Copy)]
pub struct Run {
    pub phase: Phase,
    pub stream: MonteCarloRng,
    pub number: u64,
    pub at: u64,
}

// Why the input is refused, and the offset of the field where that shows: in all of the input, which may be longer than any slice, so that
// it is no `plan::Misread`.
#[derive(Clone, Copy, Debug, PartialEq, Eq)]
pub struct Refused {
    pub why: Refusal,
    pub offset: u64,
}

// A run after a turn: how many bytes it took, and what it tells: nothing, an update's line, or a refusal. Where nothing was taken and
// the run is not over, it waits for more bytes.
#[derive(Clone, Copy)]
pub struct Turned {
    pub run: Run,
    pub taken: usize,
    pub told: Result<Option<Summary>, Refused>,
}

// The plan is due.
#[tactic(auto, unfolding(crate::specs::Said::beginning_of))]
pub fn beginning() -> Run
    ensures { result ≡ beginning_of }
{
    Run {
        phase: Phase::Plan,
        stream: MonteCarloRng {
            s0: 0,
            s1: 0,
            s2: 0,
            s3: 0,
        },
        number: 1,
        at: 0,
    }
}

// Whether nothing is due any more.
pub fn is_over(run: Run) -> bool
    ensures { result ≡ is_over_of run }
{
    run.phase == Phase::Over
}

// One turn: the plan, the stream's field, a row of at most 256 samples, or an update. A turn that waits or refuses leaves the table and
// the grid's memory as they were; but a refused sample's row leaves what the samples before it left. `last` says that nothing comes behind these
// bytes, which only the caller knows.
pub fn turn(
    run: Run,
    bytes: &[u8],
    last: bool,
    table: &mut [u64],
    reals: &mut [f64],
    counts: &mut [u64],
    spare_reals: &mut [f64],
    spare_counts: &mut [u64],
) -> Turned
    ensures counts_after { turn_end (said result) table.new (memory reals.new counts.new) ≡
        turn_of run bytes.now last table.old (memory reals.old counts.old) (length spare_reals.old) (length spare_counts.old) }
    ensures taken_in_bounds { result.taken ≤ length bytes.now }
{
    match run.phase {
        Phase::Plan => planning::read_plan(run, bytes, last, table, reals, counts),
        Phase::Stream => turns::read_stream(run, bytes, last),
        Phase::Samples => turns::read_samples(
            run,
            bytes,
            last,
            table,
            reals,
            counts,
            spare_reals,
            spare_counts,
        ),
        Phase::Over => saying::waits(run),
    }
}
