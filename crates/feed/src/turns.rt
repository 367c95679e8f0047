// The turns behind the plan's.
ghost use Rattle.std.specs.Prelude.{◌≡◌, ◌≤◌, ◌&&◌, length, ◌==◌, slice_index};
ghost use Rattle.stream.specs.Calls.{new_of};
ghost use Rattle.plan.specs.Numbers.{number_at};
ghost use Rattle.lent.specs.Memory.{memory};
ghost use Rattle.feed.specs.Said.{said};
ghost use Rattle.feed.specs.Turns.{turn_end, made_of, stream_turn, samples_turn};

use crate::fields::{Standing, stands};
use crate::numbers::number_at;
use crate::saying::{ends, goes_on, refuses_due, waits};
use crate::training::read_row;
use crate::updating::read_update;
use crate::{Phase, Run, Turned};
use doubles::Refusal;
use stream::MonteCarloRng;

// A whole 10.
#[tactic(auto, using(std::proofs::lemmas::Bool::Decides::nat_tests), unfolding(crate::specs::Turns::made_of))]
fn make_stream(run: Run, bytes: &[u8]) -> Turned
    requires { 13 ≤ length bytes.now }
    ensures { said result ≡ made_of run (new_of (number_at bytes.now 3 8) (number_at bytes.now 11 2)) }
{
    let seed = number_at(bytes, 3, 8);
    let number = number_at(bytes, 11, 2);
    match MonteCarloRng::new(seed, number) {
        Err(why) => refuses_due(run, why),
        Ok(made) => goes_on(run, Phase::Samples, made, 0, 13),
    }
}

// The stream's field.
#[tactic(auto, unfolding(crate::specs::Turns::stream_turn, crate::specs::Turns::stream_by))]
pub fn read_stream(run: Run, bytes: &[u8], last: bool) -> Turned
    ensures { said result ≡ stream_turn run bytes.now last }
{
    match stands(bytes, 0x10, 10, last) {
        Standing::Waiting => waits(run),
        Standing::Wrong => refuses_due(run, Refusal::Malformed),
        Standing::Whole => make_stream(run, bytes),
    }
}

// Whether the input ends here.
fn is_end(bytes: &[u8], last: bool) -> bool
    ensures { result ≡ (last && length bytes.now == 0) }
{
    last && bytes.is_empty()
}

// Whether the bytes begin with the tag of an 11.
fn begins_sample(bytes: &[u8]) -> bool
    ensures { result ≡ (slice_index bytes.now 0 == 0x11) }
{
    !bytes.is_empty() && bytes[0] == 0x11
}

// Samples and updates. The input may end before any of them.
#[tactic(auto, using(std::proofs::lemmas::Bool::Decides::nat_tests), unfolding(crate::specs::Turns::samples_turn))]
pub fn read_samples(
    run: Run,
    bytes: &[u8],
    last: bool,
    table: &[u64],
    reals: &mut [f64],
    counts: &mut [u64],
    spare_reals: &mut [f64],
    spare_counts: &mut [u64],
) -> Turned
    ensures { turn_end (said result) table.now (memory reals.new counts.new) ≡
        samples_turn run bytes.now last table.now (memory reals.old counts.old) (length spare_reals.old) (length spare_counts.old) }
{
    if is_end(bytes, last) {
        return ends(run);
    }
    if begins_sample(bytes) {
        return read_row(run, bytes, last, table, reals, counts);
    }
    read_update(
        run,
        bytes,
        last,
        table,
        reals,
        counts,
        spare_reals,
        spare_counts,
    )
}
