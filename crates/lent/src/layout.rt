// What a grid's run of the plan's table says of its place in lent memory.
ghost use Rattle.std.specs.Prelude.{◌≡◌, ◌+◌, ◌^◌, ◌≤◌, ◌<◌, length, get_or};
ghost use Rattle.lent.specs.Tree.{axes_place, nowhere, place_fits, place_of};

use crate::AxesAt;

// The table's word i.
fn word(table: &[u64], i: usize) -> u64
    requires { i < length table.now }
    ensures { result ≡ get_or table.now i 0 }
{
    table[i]
}

// Whether a run's head lies in the table at word w, and its places leave room for what stands before the axes.
fn holds_place(table: &[u64], w: usize) -> bool
    ensures { result ≡ place_fits table.now w }
{
    if table.len() < 11 {
        return false;
    }
    if table.len() - 11 < w {
        return false;
    }
    (word(table, w + 9) <= 9223372036854775808) & (word(table, w + 10) <= 9223372036854775808)
}

// The place of no axes. What crosses crates asks nothing and is read on by callers who know that a run is there: an Option would have each of
// them show that again.
fn no_place() -> AxesAt
    ensures { result ≡ nowhere }
{
    AxesAt {
        axes: 0,
        most: 0,
        floor: 0.0,
        reals: 0,
        counts: 0,
    }
}

// Where the axes of an axes grid stand whose run lies in the table; `samples` has its own, since this one asks.
fn place_there(table: &[u64], w: usize) -> AxesAt
    requires { (w + 11 ≤ length table.now) × (get_or table.now (w + 9) 0 ≤ 2 ^ 63) × (get_or table.now (w + 10) 0 ≤ 2 ^ 63) }
    ensures { result ≡ axes_place table.now w }
{
    AxesAt {
        axes: word(table, w + 2) as usize,
        most: word(table, w + 7) as usize,
        floor: answers::double(word(table, w + 6)),
        reals: word(table, w + 9) as usize + 14,
        counts: word(table, w + 10) as usize + 7,
    }
}

// Where the axes of the axes grid at word w stand: nowhere, and none, where no run's head can stand there.
pub fn axes_place(table: &[u64], w: usize) -> AxesAt
    ensures { result ≡ place_of table.now w }
{
    if !holds_place(table, w) {
        return no_place();
    }
    place_there(table, w)
}
