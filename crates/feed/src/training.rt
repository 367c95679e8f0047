// The turn of a row of 11s.
ghost use Rattle.std.specs.Prelude.{◌≡◌, ◌≤◌, length};
ghost use Rattle.lent.specs.Memory.{memory};
ghost use Rattle.lent.specs.Batched.{said as batch_said};
ghost use Rattle.feed.specs.Said.{said};
ghost use Rattle.feed.specs.Fields.{row_from};
ghost use Rattle.feed.specs.Turns.{turn_end, trained_of, train_of, row_turn};

use crate::fields::{Standing, gather, stands};
use crate::saying::{goes_on, refuses, refuses_due, waits};
use crate::{Phase, Run, Turned};
use doubles::Refusal;
use grid::Batched;

// What a row came to.
#[tactic(auto, using(std::proofs::lemmas::Bool::Decides::nat_tests), unfolding(crate::specs::Turns::trained_of, crate::specs::Said::refusing))]
fn trained(run: Run, batched: Batched) -> Turned
    requires { batched.done ≤ 256 }
    ensures { said result ≡ trained_of run (batch_said batched) }
{
    let taken = 11 * batched.done;
    let turned = goes_on(run, Phase::Samples, batched.stream, batched.done, taken);
    match batched.end {
        Ok(()) => turned,
        Err(why) => refuses(turned, why, turned.run.at),
    }
}

// Draws and trains with each evaluation.
#[tactic(auto, unfolding(crate::specs::Turns::train_of, crate::specs::Turns::batch_ends))]
fn train(
    run: Run,
    table: &[u64],
    reals: &mut [f64],
    counts: &mut [u64],
    evaluations: &[f64],
) -> Turned
    requires { length evaluations.now ≤ 256 }
    ensures { turn_end (said result) table.now (memory reals.new counts.new) ≡
        train_of run table.now evaluations.now (memory reals.old counts.old) }
{
    let batched = grid::draw_and_train(table, reals, counts, run.stream, evaluations, run.number);
    trained(run, batched)
}

// The 11s that the bytes begin with, gathered and trained.
fn train_row(
    run: Run,
    bytes: &[u8],
    table: &[u64],
    reals: &mut [f64],
    counts: &mut [u64],
    room: &mut [f64],
) -> Turned
    requires { length room.old ≡ 256 }
    ensures { turn_end (said result) table.now (memory reals.new counts.new) ≡
        train_of run table.now (row_from bytes.now 0 256) (memory reals.old counts.old) }
{
    let many = gather(bytes, room);
    train(run, table, reals, counts, &room[..many])
}

// The same; the room comes as a reference to an array, so that the proof sees its length and not its zeros.
fn train_in(
    run: Run,
    bytes: &[u8],
    table: &[u64],
    reals: &mut [f64],
    counts: &mut [u64],
    room: &mut [f64; 256],
) -> Turned
    ensures { turn_end (said result) table.now (memory reals.new counts.new) ≡
        train_of run table.now (row_from bytes.now 0 256) (memory reals.old counts.old) }
{
    train_row(run, bytes, table, reals, counts, room)
}

// An 11 is due.
#[tactic(auto, unfolding(crate::specs::Turns::row_turn, crate::specs::Turns::row_by))]
pub fn read_row(
    run: Run,
    bytes: &[u8],
    last: bool,
    table: &[u64],
    reals: &mut [f64],
    counts: &mut [u64],
) -> Turned
    ensures { turn_end (said result) table.now (memory reals.new counts.new) ≡
        row_turn run bytes.now last table.now (memory reals.old counts.old) }
{
    match stands(bytes, 0x11, 8, last) {
        Standing::Waiting => waits(run),
        Standing::Wrong => refuses_due(run, Refusal::Malformed),
        Standing::Whole => {
            let mut room = [0.0f64; 256];
            train_in(run, bytes, table, reals, counts, &mut room)
        }
    }
}
