// The calls of the oracle's list, plan by plan (oracle/README.md, "grid"): the plan is laid, then come the calls, each behind the number
// of its words.
ghost use Rattle.std.specs.Prelude.{◌*◌, ◌≤◌, length};

use crate::call::Call;
use crate::memory::{Memory, Rooms};
use crate::tally::Tally;
use crate::{list, reads, writes};
use answers::{below, load, word};

// One call, at the list's begin: whether it agrees.
fn replay_call(list: &[u8], call: Call, rooms: &mut Rooms) -> bool {
    match call {
        Call::Fresh => false,
        Call::Draw => reads::draw(list, rooms),
        Call::Probe => reads::probe(list, rooms),
        Call::Summary => reads::summary(list, rooms),
        Call::LiveEstimate => reads::live(list, rooms),
        Call::LiveEstimateOfBin => reads::live_of_bin(list, rooms),
        Call::Train => writes::train(list, rooms),
        Call::Update => writes::update(list, rooms),
        Call::CloneWithoutSamples => writes::copy(list, rooms),
        Call::IsMergeable => writes::is_mergeable(list, rooms),
        Call::Merge => writes::merge(list, rooms),
        Call::SetCell => writes::set_cell(list, rooms),
        Call::DrawAndTrain => writes::draw_and_train(list, rooms),
    }
}

// The plan at the list's begin laid; whether it was not refused.
fn lay_plan(list: &[u8], room: &mut [u8; 2048], rooms: &mut Rooms) -> bool {
    let size = below(list, 1, 2048);
    load(list, 2, room);
    grid::fresh(
        &room[..size],
        &mut rooms.table,
        &mut rooms.own.reals,
        &mut rooms.own.counts,
    )
    .is_ok()
}

// The calls of the plan at the list's begin, which is laid. A call of no number is counted as a plan that is not laid. A `while`, here and
// below, since a record says how long it is.
fn replay_calls(list: &[u8], tally: &mut Tally, rooms: &mut Rooms) {
    let mut at = list::first_call(list);
    let end = list::words_of(list);
    while at < end {
        let here = &list[at * 17..];
        let call = Call::try_from(word(here, 1)).unwrap_or(Call::Fresh);
        tally.count(call, replay_call(here, call, rooms));
        at += 1 + below(here, 0, 64);
    }
}

// The plan at the list's begin laid on a state of zeros, where the table holds other numbers, and its calls.
fn replay_plan(list: &[u8], tally: &mut Tally) {
    let mut room = [0u8; 2048];
    let mut rooms = Rooms {
        table: [1; 8192],
        own: Memory::new(),
        other: Memory::new(),
        stream: list::stream_of(list),
    };
    tally.count(Call::Fresh, lay_plan(list, &mut room, &mut rooms));
    replay_calls(list, tally, &mut rooms);
}

// The plans of a list of so many words one after the other, each with its calls.
pub fn replay(list: &[u8], words: usize) -> Tally
    requires { words * 17 ≤ length list.now }
{
    let mut tally = Tally::new();
    let mut at = 0;
    while at < words {
        let here = &list[at * 17..];
        replay_plan(here, &mut tally);
        at += 1 + below(here, 0, 4096);
    }
    tally
}
