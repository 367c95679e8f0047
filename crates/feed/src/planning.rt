// The plan's turn.
ghost use Rattle.std.specs.Prelude.{◌≡◌, ◌≤◌, length};
ghost use Rattle.doubles.specs.Refusal.{number_of};
ghost use Rattle.plan.specs.Paper.{plan_read};
ghost use Rattle.lent.specs.Memory.{memory};
ghost use Rattle.feed.specs.Said.{said};
ghost use Rattle.feed.specs.Turns.{turn_end, all_in, unread_of, found_of, plan_turn};

use crate::saying::{goes_on, refuses, waits};
use crate::{Phase, Run, Turned};
use doubles::Refusal;
use plan::{Misread, Read};

// Whether no further byte can change the plan's answer.
#[tactic(auto, unfolding(crate::specs::Turns::all_in))]
fn is_all_in(bytes: &[u8], last: bool) -> bool
    ensures { result ≡ all_in bytes.now last }
{
    last | (131072 <= bytes.len())
}

// No plan: while more bytes may come, a 1 may be for their lack.
fn unread(run: Run, all: bool, misread: Misread) -> Turned
    ensures { said result ≡ unread_of run all (number_of misread.why) misread.at }
{
    if !all & (misread.why == Refusal::Malformed) {
        return waits(run);
    }
    refuses(waits(run), misread.why, misread.at as u64)
}

// A plan: while more bytes may come, an 02 may follow one that ends with the bytes. Then its room, and its grid.
#[tactic(auto, using(std::proofs::lemmas::Bool::Decides::nat_tests), unfolding(crate::specs::Turns::found_of, crate::specs::Turns::fresh_ends, crate::specs::Turns::fresh_said, crate::specs::Said::refusing_at))]
fn found(
    run: Run,
    bytes: &[u8],
    all: bool,
    read: Read,
    table: &mut [u64],
    reals: &mut [f64],
    counts: &mut [u64],
) -> Turned
    requires { read.end ≤ length bytes.now }
    ensures { turn_end (said result) table.new (memory reals.new counts.new) ≡
        found_of run bytes.now all (plan_read read.end read.needs) table.old (memory reals.old counts.old) }
{
    if !all & (read.end == bytes.len()) {
        return waits(run);
    }
    if 128 < read.needs.bins {
        return refuses(waits(run), Refusal::Room, 0);
    }
    match grid::fresh(&bytes[..read.end], table, reals, counts) {
        Ok(_) => goes_on(run, Phase::Stream, run.stream, 0, read.end),
        Err(misread) => refuses(waits(run), misread.why, misread.at as u64),
    }
}

// The plan, which is only measured until it is laid, so that a turn that waits or refuses writes nothing.
#[tactic(auto, using(std::proofs::lemmas::Bool::Decides::nat_tests), unfolding(crate::specs::Turns::plan_turn, crate::specs::Turns::plan_by))]
pub fn read_plan(
    run: Run,
    bytes: &[u8],
    last: bool,
    table: &mut [u64],
    reals: &mut [f64],
    counts: &mut [u64],
) -> Turned
    ensures { turn_end (said result) table.new (memory reals.new counts.new) ≡
        plan_turn run bytes.now last table.old (memory reals.old counts.old) }
{
    let all = is_all_in(bytes, last);
    match plan::measure_prefix(bytes) {
        Ok(read) => found(run, bytes, all, read, table, reals, counts),
        Err(misread) => unread(run, all, misread),
    }
}
