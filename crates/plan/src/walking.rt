// Knowing a table again: the walk that judges it as the bytes were judged.
ghost use Rattle.std.specs.Prelude.{◌≡◌, ◌+◌, ◌-◌, ◌≤◌, ◌<◌, get_or};
ghost use Rattle.plan.specs.Numbers.{words_at};
ghost use Rattle.plan.specs.Ranges.{most_if_bounded};
ghost use Rattle.plan.specs.Judged.{known};
ghost use Rattle.plan.specs.Reading.{tree_of, trees_of, step_of, steps_of};
ghost use Rattle.plan.specs.Walk.{axes_row, bins_row, placed, evolved, axes_at_word, bins_at_word, row_of, child_of, from_table};
ghost use Rattle.plan.specs.Bounds.{Roomy};

use crate::fields::{axes_fault, bins_fault, most_of, take_axes, take_bins};
use crate::{AxesPlan, BinPlan, BinsPlan, Child, Place, Tally};

// The word at a place of the table, 0 past the end.
fn word_at(table: &[u64], at: usize) -> usize
    ensures { result ≡ get_or table.now at 0 }
{
    table.get(at).map_or(0, |word| *word as usize)
}

// Whether the words that the plan does not choose are those of this place; the stretches' begins stand at the k-th and the next.
#[tactic(auto, using(std::proofs::lemmas::Bool::Decides::nat_tests), unfolding(crate::specs::Walk::placed))]
fn is_placed(table: &[u64], level: usize, t: Tally, k: usize) -> bool
    requires { (k ≤ 9) × (t.words ≤ 16832) }
    ensures { result ≡ placed table.now level t k }
{
    word_at(table, t.words + 1) == level
        && word_at(table, t.words + k) == t.reals
        && word_at(table, t.words + (k + 1)) == t.counts
}

// The largest of `least` and the words from a place on; nothing where one is out of bounds.
fn most_among(table: &[u64], w: usize, values: usize, least: usize) -> Option<usize>
    requires { w + values ≤ 32768 }
    ensures { result ≡ most_if_bounded least (words_at table.now w values) }
{
    most_of(least, values, |i| word_at(table, w + i))
}

// An axes grid's values as its row has them.
#[tactic(auto, unfolding(crate::specs::Walk::axes_row))]
fn axes_row(table: &[u64], w: usize) -> AxesPlan
    requires { w ≤ 16832 }
    ensures { result ≡ axes_row table.now w }
{
    AxesPlan {
        axes: word_at(table, w + 2),
        bins: word_at(table, w + 3),
        least: word_at(table, w + 4),
        flag: word_at(table, w + 5),
        floor: word_at(table, w + 6) as u64,
        most: word_at(table, w + 7),
        values: word_at(table, w + 8),
    }
}

// Whether an axes grid's words are those of a 01 and its 02.
#[tactic(auto, using(std::proofs::lemmas::Bool::Decides::nat_tests), unfolding(crate::specs::Walk::evolved))]
fn is_evolved(table: &[u64], w: usize, a: AxesPlan) -> bool
    requires { w ≤ 16832 }
    ensures { result ≡ evolved table.now w a }
{
    a.least <= 0xffff_ffff
        && a.values <= 16
        && most_among(table, w + 11, a.values, a.bins) == Some(a.most)
}

// An axes grid at the next word of a table: its row has to be what reading it would have written.
fn axes_at_word(table: &[u64], level: usize, p: Place) -> Option<BinPlan>
    requires { Roomy p.tally }
    ensures { known result ≡ axes_at_word table.now level p }
{
    let t = p.tally;
    if !is_placed(table, level, t, 9) {
        return None;
    }
    let a = axes_row(table, t.words);
    axes_fault(a, t.left).ok()?;
    if !is_evolved(table, t.words, a) {
        return None;
    }
    Some(BinPlan {
        child: Child::Axes(a),
        past: Place {
            at: p.at,
            tally: take_axes(a, t),
        },
    })
}

// A bins grid's values as its row has them.
#[tactic(auto, unfolding(crate::specs::Walk::bins_row))]
fn bins_row(table: &[u64], w: usize) -> BinsPlan
    requires { w ≤ 16832 }
    ensures { result ≡ bins_row table.now w }
{
    BinsPlan {
        bins: word_at(table, w + 2),
        ratio: word_at(table, w + 3) as u64,
        flag: word_at(table, w + 4),
    }
}

// A bins grid at the next word of a table, likewise.
fn bins_at_word(table: &[u64], level: usize, p: Place) -> Option<BinPlan>
    requires { Roomy p.tally }
    ensures { known result ≡ bins_at_word table.now level p }
{
    let t = p.tally;
    if !is_placed(table, level, t, 5) {
        return None;
    }
    let b = bins_row(table, t.words);
    bins_fault(b, t.left, level).ok()?;
    Some(BinPlan {
        child: Child::Bins(b),
        past: Place {
            at: p.at,
            tally: take_bins(b, t),
        },
    })
}

// The record at a place of the table, judged.
#[tactic(auto, using(std::proofs::lemmas::Bool::Decides::nat_tests), unfolding(crate::specs::Walk::row_of))]
fn row_at(table: &[u64], level: usize, p: Place) -> Option<BinPlan>
    requires { Roomy p.tally }
    ensures { known result ≡ row_of table.now level p }
{
    match word_at(table, p.tally.words) {
        1 => axes_at_word(table, level, p),
        2 => bins_at_word(table, level, p),
        _ => None,
    }
}

// Whether a grid stands at a place of the table, and what is taken past it.
// Beside `measure`: one walk over a trait of both readers would need their laws as ghost members, more than these lines.
#[cycle(known_known_all_linked)]
pub fn known(level: usize, p: Place, table: &[u64]) -> Option<Place>
    requires { Roomy p.tally }
    ensures { known result ≡ step_of (tree_of (from_table table.now) level p) }
{
    let bin = row_at(table, level, p)?;
    match bin.child {
        Child::Nothing | Child::Axes(_) => Some(bin.past),
        Child::Bins(b) => known_all(level - 1, b.bins, bin.past, table),
    }
}

// The same for the children whose links are the n words before a place.
#[cycle(known_known_all_linked)]
fn known_all(level: usize, n: usize, p: Place, table: &[u64]) -> Option<Place>
    requires { Roomy p.tally × (n ≤ p.tally.words) }
    ensures { known result ≡ steps_of (trees_of (λ s q. child_of table.now (tree_of (from_table table.now) level) s q) (p.tally.words - n) n p) }
{
    let slot = p.tally.words - n;
    let mut here = p;
    for i in 0..n {
        here = linked(level, slot + i, here, table)?;
    }
    Some(here)
}

// The child whose link is at a slot: none where it is 0, else the grid at this place, which it must name.
#[cycle(known_known_all_linked)]
fn linked(level: usize, slot: usize, p: Place, table: &[u64]) -> Option<Place>
    requires { Roomy p.tally }
    ensures { known result ≡ step_of (child_of table.now (tree_of (from_table table.now) level) slot p) }
{
    let link = word_at(table, slot);
    if link == 0 {
        return Some(p);
    }
    if link != p.tally.words {
        return None;
    }
    known(level, p, table)
}
