// The numerical heart of an update: of an axis, what waits is gathered, and from the gathered importances new edges are cut; of a bins
// grid, raw probabilities are held up by the ratio and divided by their sum.
//
// Every call answers on any input. `renew` works on a spare: the importances it is lent are its workspace, and the new
// edges stand in a room beside them, so that the axis itself is written only once the update is known to be accepted.
#![tactic(auto)]

mod chances;
mod cut;
mod each;
mod weights;

ghost use Rattle.std.specs.Prelude.{◌≡◌, ◌<◌, ◌≤◌, length};
ghost use Rattle.recut.specs.Gather.{gathered_of, joined_count, joined_counts, reaches_of};
ghost use Rattle.recut.specs.Chances.{all_chances, adapted_to, higher};
ghost use Rattle.recut.specs.Renew.{paper_renewed, lengths_fit, from_damped, from_divided, renew_of};

pub use chances::is_chance;
use doubles::Refusal;

// Adds element by element, over the shorter length.
pub fn gather(importances: &mut [f64], added: &[f64])
    ensures { importances.new ≡ gathered_of importances.old added.now }
{
    each::pair(importances, added, |x, y| x + y);
}

// A count with its waiting samples, where neither is above 2^53; else the count alone.
pub fn joined_count(n: u64, waiting: u64) -> u64
    ensures { result ≡ joined_count n waiting }
{
    if n <= 9007199254740992 {
        if waiting <= 9007199254740992 {
            return n + waiting;
        }
    }
    n
}

// Adds counts element by element, over the shorter length. A pair of which one is above 2^53 stays.
pub fn gather_counts(counters: &mut [u64], waiting: &[u64])
    ensures { counters.new ≡ joined_counts counters.old waiting.now }
{
    each::pair(counters, waiting, joined_count);
}

// The second where it is above the first, else the first.
pub fn higher_of(top: f64, p: f64) -> f64
    ensures { result ≡ higher top p }
{
    if top < p {
        return p;
    }
    top
}

// Whether the counters' sum is at least `least`: it is taken from `least`, so nothing overflows.
pub fn reaches(counters: &[u64], least: u64) -> bool
    ensures { result ≡ reaches_of least counters.now }
{
    let mut rest = least;
    for n in counters {
        if rest <= *n {
            return true;
        }
        rest = rest - *n;
    }
    rest == 0
}

// Whether the lengths are one axis's, and the room has places for at least one bin.
fn lengths_fit(edges: &[f64], importances: &[f64], counters: &[u64], room: &[f64]) -> bool
    ensures { result ≡ lengths_fit edges.now importances.now counters.now (length room.now) }
{
    let n = importances.len();
    if n < 1 {
        return false;
    }
    if edges.len() != n + 1 {
        return false;
    }
    if counters.len() != n {
        return false;
    }
    2 <= room.len()
}

// The room's edges, cut by damped importances. Refused: 8, 9.
fn from_damped(edges: &[f64], damped: &[f64], room: &mut [f64]) -> Result<(), Refusal>
    requires { (0 < length damped.now) × (length damped.now < length edges.now) × (2 ≤ length room.old) }
    ensures { paper_renewed result room.new ≡ from_damped edges.now damped.now (length room.old) }
{
    let weight = weights::total(damped);
    if !plain::finite(weight) {
        return Err(Refusal::Overflow);
    }
    let step = weight / plain::count((room.len() - 1) as u64);
    cut::cut(edges, damped, step, room);
    if !axis::scans::is_well_formed(room) {
        return Err(Refusal::Edges);
    }
    Ok(())
}

// The room's edges, cut by importances that are divided by their counts: these are smoothed and damped first. An importance
// that is not finite, at whatever stage, leaves the next total not finite, so only the two totals are tested. Refused: 8, 9.
fn from_divided(
    edges: &[f64],
    importances: &mut [f64],
    rate: f64,
    room: &mut [f64],
) -> Result<(), Refusal>
    requires { (0 < length importances.old) × (length importances.old < length edges.now) × (2 ≤ length room.old) }
    ensures { paper_renewed result room.new ≡ from_divided edges.now importances.old rate (length room.old) }
{
    weights::smoothen(importances);
    let total = weights::total(importances);
    if !plain::finite(total) {
        return Err(Refusal::Overflow);
    }
    weights::damp(importances, total, rate);
    from_damped(edges, importances, room)
}

// New edges for the whole room, cut by the gathered importances. Refused: 10 where the lengths do not fit; 8 where an
// importance, at any stage, or a total of them is not finite; 9 where the new edges do not rise strictly from 0 to 1.
pub fn renew(
    edges: &[f64],
    importances: &mut [f64],
    counters: &[u64],
    rate: f64,
    room: &mut [f64],
) -> Result<(), Refusal>
    ensures { paper_renewed result room.new ≡
        renew_of edges.now importances.old counters.now rate (length room.old) }
{
    if !lengths_fit(edges, importances, counters, room) {
        return Err(Refusal::Room);
    }
    weights::normalise(importances, counters);
    from_divided(edges, importances, rate, room)
}

// Raw probabilities made the bins grid's: none below the highest divided by the ratio, then divided by their sum. Answers whether every
// one is finite and above 0.
pub fn adapt(ps: &mut [f64], ratio: f64) -> bool
    ensures { (ps.new ≡ adapted_to ratio ps.old) × (result ≡ all_chances (adapted_to ratio ps.old)) }
{
    let least = chances::highest_of(ps) / ratio;
    chances::raise(ps, least);
    let total = weights::total(ps);
    chances::divide(ps, total);
    chances::are_chances(ps)
}
