// The calls of the oracle's list, record by record (oracle/README.md, "accumulator"): the call's number, record, arguments, refusal
// number, answers. A list here begins with the record at hand.
ghost use Rattle.std.specs.Prelude.{◌<◌};

use crate::call::Call;
use crate::list::{double_at, holds_record, holds_three, record_at};
use accumulator::{StatisticsAccumulator, Summary, Updated};
use answers::{Replayed, word, words};
use doubles::Refusal;

// Whether an answer is the list's: the refusal's number at a place, or a 0 there and the value behind it.
// replay_grid has the same one: `answers`, which they share, is built on nothing and knows no refusals.
fn holds_answer<T, Same: Fn(usize, T) -> bool>(
    list: &[u8],
    at: usize,
    answer: Result<T, Refusal>,
    same: Same,
) -> bool
    requires in_list { at < 64 }
    requires callable { Same.IsAlwaysCallable same }
{
    match answer {
        Ok(value) => (word(list, at) == 0) & same(at + 1, value),
        Err(why) => word(list, at) == why.number(),
    }
}

// Whether a record is the list's.
fn holds_after(list: &[u8], at: usize, answer: Result<StatisticsAccumulator, Refusal>) -> bool
    requires { at < 64 }
{
    holds_answer(list, at, answer, |at, after| holds_record(list, at, after))
}

// Whether an update is the list's.
fn holds_updated(list: &[u8], at: usize, answer: Result<Updated, Refusal>) -> bool
    requires { at < 64 }
{
    holds_answer(list, at, answer, |at, updated: Updated| {
        (word(list, at) == u64::from(updated.processed))
            & holds_record(list, at.wrapping_add(1), updated.after)
    })
}

// Whether a summary's words are those from a place on; replay_grid's list has the same, and `answers` knows no summary.
fn holds_summary(list: &[u8], at: usize, s: Summary) -> bool {
    answers::holds(list, at, &[s.iterations, s.samples])
        & holds_three(list, at.wrapping_add(2), s.average, s.error, s.chi_squared)
        & (word(list, at.wrapping_add(5)) == u64::from(s.flat))
}

// One record: its call made, and the answer held against the list.
fn replay_call(list: &[u8], call: Call) -> bool {
    let at = call.before();
    let record = record_at(list, 1);
    let other = record_at(list, 22);
    match call {
        Call::AddSample => {
            let added = record.add_sample(double_at(list, 22), word(list, 23));
            holds_after(list, at, added)
        }
        Call::MergeSamplesNoReset => holds_after(list, at, record.merge_samples_no_reset(other)),
        Call::UpdatePlain => holds_updated(list, at, record.update_iter(false)),
        Call::UpdateWeighted => holds_updated(list, at, record.update_iter(true)),
        Call::GetLiveEstimate => holds_answer(list, at, record.get_live_estimate(), |at, e| {
            holds_three(list, at, e.avg, e.err, e.chi_sq)
        }),
        Call::ShallowCopy => holds_after(list, at, record.shallow_copy()),
        Call::ClearSamples => holds_after(list, at, record.clear_samples()),
        Call::MergeSamples => holds_answer(list, at, record.merge_samples(other), |at, both| {
            holds_record(list, at, both.after) & holds_record(list, at.wrapping_add(21), both.other)
        }),
        Call::Summary => holds_answer(list, at, record.summary(), |at, s| {
            holds_summary(list, at, s)
        }),
    }
}

// How many words a record has behind its first: a refused call's ends with the number.
fn rest_of(list: &[u8], call: Call) -> usize
    ensures { result < 128 }
{
    let before = call.before();
    if word(list, before) == 0 {
        before + call.behind()
    } else {
        before
    }
}

// The records of one call, or of all where none is wanted. A record of no call never agrees, and has one word. A `while`, since a record says
// how long it is.
#[tactic(auto, unfolding(answers::specs::List::words_of))]
pub fn replay(list: &[u8], wanted: Option<Call>) -> Replayed {
    let end = words(list);
    let mut replayed = Replayed { agreed: 0, all: 0 };
    let mut at = 0;
    while at < end {
        let here = &list[at * 17..];
        let call = Call::try_from(word(here, 0)).ok();
        if wanted.is_none() | (call == wanted) {
            replayed = replayed.count(call.is_some_and(|call| replay_call(here, call)));
        }
        at += 1 + call.map_or(0, |call| rest_of(here, call));
    }
    replayed
}
