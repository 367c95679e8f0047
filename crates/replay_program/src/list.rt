// The words of a list as an input's bytes, and held against what a turn tells. A list here begins with the input at hand.
ghost use Rattle.std.specs.Prelude.{◌<◌};

use accumulator::Summary;
use answers::{below, bits, holds};
use feed::Refused;

// Where an input's lines begin in the list, and where they end.
#[derive(Clone, Copy)]
pub struct Lines {
    pub from: usize,
    pub end: usize,
}

// The lines stand behind the input's bytes and their own number.
pub fn lines_of(list: &[u8]) -> Lines {
    let number = 2 + (below(list, 1, 1024) + 7) / 8;
    let from = number + 1;
    Lines {
        from,
        end: from + 6 * below(list, number, 256),
    }
}

// The number of the refusal that an input ends in, 0 where it ends in none: a place of the tally's list, as the input's line
// has it, and so no Option that would be turned back into one.
pub fn ends_in(list: &[u8]) -> usize
    ensures { result < 13 }
{
    let lines = lines_of(list);
    if lines.from < lines.end {
        return below(list, lines.end.wrapping_sub(6), 13);
    }
    0
}

// Whether the line at a place is this one: 0, then its five numbers.
fn is_line(list: &[u8], at: usize, s: Summary) -> bool {
    let line = [
        0,
        s.iterations,
        s.samples,
        bits(s.average),
        bits(s.error),
        bits(s.chi_squared),
    ];
    holds(list, at, &line)
}

// A place among an input's lines, and whether all told up to it agrees with the list.
#[derive(Clone, Copy)]
pub struct Held {
    pub at: usize,
    pub agrees: bool,
}

// One line further; past the last line nothing agrees.
fn further(held: Held, end: usize, agrees: bool) -> Held {
    let at = held.at.wrapping_add(6);
    Held {
        at,
        agrees: held.agrees & agrees & (at <= end),
    }
}

// What a turn tells, held against the lines up to an end.
pub fn hold(list: &[u8], held: Held, end: usize, told: Result<Option<Summary>, Refused>) -> Held {
    match told {
        Ok(None) => held,
        Ok(Some(s)) => further(held, end, is_line(list, held.at, s)),
        Err(refused) => {
            let numbers = [refused.why.number(), refused.offset];
            further(held, end, holds(list, held.at, &numbers))
        }
    }
}
