// The calls that leave the memory as it is, their arguments from the list's third word on.
ghost use Rattle.std.specs.Prelude.{◌<◌};

use crate::list::{holds_answer, holds_doubles, holds_sample, holds_stream, path_at, region_at};
use crate::memory::Rooms;
use answers::{bits, holds, word};
use grid::{Estimate, Refusal, Summary};

// draw
pub fn draw(list: &[u8], rooms: &mut Rooms) -> bool {
    let drawn = rooms.draw();
    let stream = rooms.stream;
    holds_answer(list, 2, drawn, |_, sample| {
        holds_sample(list, sample) & holds_stream(list, stream)
    })
}

// probe
pub fn probe(list: &[u8], rooms: &Rooms) -> bool {
    let answer = grid::probe(
        &rooms.table,
        &rooms.own.reals,
        &rooms.own.counts,
        region_at(list),
    );
    holds_answer(
        list,
        24,
        answer,
        |at, weight| word(list, at) == bits(weight),
    )
}

// Whether a summary's words are those from a place on; replay_accumulator's list has the same, and `answers` knows no summary.
fn holds_summary(list: &[u8], at: usize, s: Summary) -> bool {
    holds(list, at, &[s.iterations, s.samples])
        & holds_doubles(
            list,
            at.wrapping_add(2),
            &[s.average, s.error, s.chi_squared],
        )
        & (word(list, at.wrapping_add(5)) == u64::from(s.flat))
}

// summary
pub fn summary(list: &[u8], rooms: &Rooms) -> bool {
    let answer = grid::summary(&rooms.table, &rooms.own.reals, &rooms.own.counts);
    holds_answer(list, 2, answer, |at, s| holds_summary(list, at, s))
}

// Whether an estimate is that of the list.
fn holds_estimate(list: &[u8], at: usize, answer: Result<Estimate, Refusal>) -> bool
    requires { at < 64 }
{
    holds_answer(list, at, answer, |at, e: Estimate| {
        holds_doubles(list, at, &[e.avg, e.err, e.chi_sq])
    })
}

// live_estimate
pub fn live(list: &[u8], rooms: &Rooms) -> bool {
    let answer = grid::live_estimate(&rooms.table, &rooms.own.reals, &rooms.own.counts);
    holds_estimate(list, 2, answer)
}

// live_estimate_of_bin
pub fn live_of_bin(list: &[u8], rooms: &Rooms) -> bool {
    let answer = grid::live_estimate_of_bin(
        &rooms.table,
        &rooms.own.reals,
        &rooms.own.counts,
        path_at(list, 3),
        word(list, 2) as usize,
    );
    holds_estimate(list, 7, answer)
}
