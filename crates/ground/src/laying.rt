// Axes emptied in lent memory: nothing waits in them, or nothing is trained in them. Where there is no room for the axis, nothing is written.
//
// An axis is its room and two numbers, most, r and c, as in `accounts`.
ghost use Rattle.std.specs.Prelude.{◌≡◌};
ghost use Rattle.lent.specs.Memory.{memory};
ghost use Rattle.lent.specs.Laid.{Roomy, waitless_at, waitless_of, forgotten_at, empty_at, empty_of};

use crate::clearing;
use lent::room;

// Nothing waits in the first n bins of an axis that there is room for.
fn clear_waiting_there(
    reals: &mut [f64],
    counts: &mut [u64],
    most: usize,
    r: usize,
    c: usize,
    n: usize,
)
    requires { Roomy most n r c reals.old counts.old }
    ensures { memory reals.new counts.new ≡ waitless_at most r c n (memory reals.old counts.old) }
{
    clearing::clear(reals, r + (2 * most + 1), n, 0.0);
    clearing::clear(reals, r + (3 * most + 1), n, 0.0);
    clearing::clear(counts, c + 2, n, 0);
    clearing::clear(counts, c + (most + 2), n, 0);
}

// The first n bins have no importances, extremes and counters.
fn forget(reals: &mut [f64], counts: &mut [u64], most: usize, r: usize, c: usize, n: usize)
    requires { Roomy most n r c reals.old counts.old }
    ensures { memory reals.new counts.new ≡ forgotten_at most r c n (memory reals.old counts.old) }
{
    clearing::clear(reals, r + (most + 1), n, 0.0);
    clearing::clear(reals, r + (4 * most + 1), n, 0.0);
    clearing::clear(reals, r + (5 * most + 1), n, 0.0);
    clearing::clear(counts, c + (2 * most + 2), n, 0);
}

// The axis, for which there is room, holds n bins after so many re-cuts, nothing trained in them.
fn empty_axis_there(
    reals: &mut [f64],
    counts: &mut [u64],
    most: usize,
    r: usize,
    c: usize,
    n: usize,
    recuts: u64,
)
    requires { Roomy most n r c reals.old counts.old }
    ensures { memory reals.new counts.new ≡ empty_at most r c n recuts (memory reals.old counts.old) }
{
    clear_waiting_there(reals, counts, most, r, c, n);
    forget(reals, counts, most, r, c, n);
    counts[c] = n as u64;
    counts[c + 1] = recuts;
}

// Nothing waits in the first n bins of an axis: their extremes stay.
pub fn clear_waiting(
    reals: &mut [f64],
    counts: &mut [u64],
    most: usize,
    r: usize,
    c: usize,
    n: usize,
)
    ensures { memory reals.new counts.new ≡ waitless_of most r c n (memory reals.old counts.old) }
{
    if !room::is_roomy(reals.len(), counts.len(), most, r, c, n) {
        return;
    }
    clear_waiting_there(reals, counts, most, r, c, n);
}

// The axis holds n bins after so many re-cuts, nothing trained in them. Its edges stay, and so does the room past n.
pub fn empty_axis(
    reals: &mut [f64],
    counts: &mut [u64],
    most: usize,
    r: usize,
    c: usize,
    n: usize,
    recuts: u64,
)
    ensures { memory reals.new counts.new ≡ empty_of most r c n recuts (memory reals.old counts.old) }
{
    if !room::is_roomy(reals.len(), counts.len(), most, r, c, n) {
        return;
    }
    empty_axis_there(reals, counts, most, r, c, n, recuts);
}
