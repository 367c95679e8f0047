// An input fed turn by turn, what is told held against its lines.
use crate::list::{Held, hold, lines_of};
use feed::{Run, Turned, beginning, is_over, turn};

pub type Room = [u8; 1024];

// What a run is lent.
struct Memory<'a> {
    table: &'a mut [u64; 16832],
    reals: &'a mut [f64; 2816],
    counts: &'a mut [u64; 1344],
}

// A run between turns: how many bytes they took, the place among the lines, whether the bytes behind the cut are there too, and whether
// another turn follows. The run counts in either case, so that no flag is an Option's.
#[derive(Clone, Copy)]
struct Fed {
    run: Run,
    taken: usize,
    held: Held,
    last: bool,
    goes: bool,
}

// Whether another turn follows on the same bytes: one that took nothing waits for more.
fn goes_on(turned: Turned) -> bool {
    (turned.taken != 0) & !is_over(turned.run)
}

// The run behind a turn. Where none follows on the bytes before the cut those behind it come; where none follows on all of them the run ends.
fn behind(list: &[u8], end: usize, fed: Fed, turned: Turned) -> Fed {
    let goes = goes_on(turned);
    Fed {
        run: turned.run,
        taken: fed.taken.wrapping_add(turned.taken),
        held: hold(list, fed.held, end, turned.told),
        last: fed.last | !goes,
        goes: !fed.last | goes,
    }
}

impl Memory<'_> {
    // One turn on the bytes that are not taken yet, up to a place. The spare holds other numbers.
    fn step(self, fed: Fed, bytes: &Room, until: usize) -> Turned {
        let mut spare_reals = [1.0f64; 2816];
        let mut spare_counts = [1u64; 1344];
        let end = until.min(bytes.len());
        let from = fed.taken.min(end);
        let Memory {
            table,
            reals,
            counts,
        } = self;
        turn(
            fed.run,
            &bytes[from..end],
            fed.last,
            table,
            reals,
            counts,
            &mut spare_reals,
            &mut spare_counts,
        )
    }
}

// An input of so many bytes cut in two: first the bytes before the cut, then all that is left. Whether its lines are the list's. The memory
// holds other numbers before. The turns are at most as many as no input takes.
fn feed_cut(list: &[u8], bytes: &Room, size: usize, cut: usize) -> bool {
    let mut table = [1; 16832];
    let mut reals = [1.0; 2816];
    let mut counts = [1; 1344];
    let lines = lines_of(list);
    let mut fed = begun(lines.from);
    for _ in 0..4096u64 {
        let until = if fed.last { size } else { cut };
        let memory = Memory {
            table: &mut table,
            reals: &mut reals,
            counts: &mut counts,
        };
        let turned = memory.step(fed, bytes, until);
        fed = behind(list, lines.end, fed, turned);
        if !fed.goes {
            return ends(fed, lines.end);
        }
    }
    ends(fed, lines.end)
}

// Before the first turn.
fn begun(from: usize) -> Fed {
    Fed {
        run: beginning(),
        taken: 0,
        held: Held {
            at: from,
            agrees: true,
        },
        last: false,
        goes: true,
    }
}

// Whether the run has ended, and all lines were told.
fn ends(fed: Fed, end: usize) -> bool {
    !fed.goes & fed.held.agrees & (fed.held.at == end)
}

// An input whole, then cut at seven places.
pub fn feed_cuts(list: &[u8], bytes: &Room, size: usize) -> bool {
    let mut agrees = true;
    let mut cut = 0;
    for _ in 0..8 {
        agrees = agrees & feed_cut(list, bytes, size, cut);
        cut = cut.wrapping_add(1 + size / 8).min(size);
    }
    agrees
}
