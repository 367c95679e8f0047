// Writing the table of a plan that was judged. A grid's kind is a word, 1 or 2: the table is what calls are lent, and has a format.
ghost use Rattle.std.specs.Prelude.{◌≡◌, ◌+◌, ◌*◌, ◌≤◌, ◌<◌, length};
ghost use Rattle.std.proofs.lemmas.List.Edits.{sets};
ghost use Rattle.plan.specs.Numbers.{values_at};
ghost use Rattle.plan.specs.Table.{head_axes, head_bins, link_at};
ghost use Rattle.plan.specs.Reading.{tree_of, trees_of, from_bytes, step_of, steps_of};
ghost use Rattle.plan.specs.Judged.{Found};
ghost use Rattle.plan.specs.Writing.{Writable, AllWritable, laid, laid_all};

use crate::bytes::{byte_at, pair_at};
use crate::fields::field_at;
use crate::{AxesPlan, BinsPlan, Child, Place, Tally};

// Writes words over those from a place on, as many as there is room for. `ground::parts::set` promises the same: `plan` stands below `ground`.
fn set_words(table: &mut [u64], at: usize, part: &[u64])
    ensures { table.new ≡ sets table.old at part.now }
{
    for (i, word) in part.iter().enumerate() {
        if table.len() - i <= at {
            return;
        }
        table[at + i] = *word;
    }
}

// The record of an axes grid, whose bin evolution follows.
#[tactic(auto, unfolding(crate::specs::Table::head_axes))]
fn put_axes(table: &mut [u64], level: usize, a: AxesPlan, t: Tally)
    ensures { table.new ≡ sets table.old t.words (head_axes level a t) }
{
    let head = [
        1,
        level as u64,
        a.axes as u64,
        a.bins as u64,
        a.least as u64,
        a.flag as u64,
        a.floor,
        a.most as u64,
        a.values as u64,
        t.reals as u64,
        t.counts as u64,
    ];
    set_words(table, t.words, &head);
}

// The values of a bin evolution.
fn put_values(table: &mut [u64], w: usize, bytes: &[u8], at: usize, values: usize)
    requires { (w + values ≤ length table.old) × (at + 2 * values ≤ length bytes.now + 131072) }
    ensures { table.new ≡ sets table.old w (values_at bytes.now at values) }
{
    for i in 0..values {
        let value = pair_at(bytes, at + 2 * i);
        table[w + i] = value as u64;
    }
}

// The record of a bins grid, whose links follow.
#[tactic(auto, unfolding(crate::specs::Table::head_bins))]
fn put_bins(table: &mut [u64], level: usize, b: BinsPlan, t: Tally)
    ensures { table.new ≡ sets table.old t.words (head_bins level b t) }
{
    let head = [
        2,
        level as u64,
        b.bins as u64,
        b.ratio,
        b.flag as u64,
        t.reals as u64,
        t.counts as u64,
    ];
    set_words(table, t.words, &head);
}

// Where the grid that comes next is to stand, 0 where none comes.
#[tactic(auto, using(std::proofs::lemmas::Bool::Decides::nat_tests), unfolding(crate::specs::Table::link_at))]
fn link_at(bytes: &[u8], p: Place) -> usize
    ensures { result ≡ link_at bytes.now p }
{
    if byte_at(bytes, p.at) == 4 {
        0
    } else {
        p.tally.words
    }
}

// Writes what hangs at a place.
#[cycle(write_write_all)]
pub fn write(level: usize, p: Place, bytes: &[u8], table: &mut [u64]) -> Place
    requires { Writable bytes.now level p (length table.old) }
    ensures { (Found result ≡ step_of (tree_of (from_bytes bytes.now) level p)) × (table.new ≡ laid level p.tally (tree_of (from_bytes bytes.now) level p) table.old) }
{
    let at = p.at;
    let t = p.tally;
    let bin = field_at(bytes, level, p).unwrap();
    match bin.child {
        Child::Nothing => bin.past,
        Child::Axes(a) => {
            put_axes(table, level, a, t);
            put_values(table, t.words + 11, bytes, at + 22, a.values);
            bin.past
        }
        Child::Bins(b) => {
            put_bins(table, level, b, t);
            write_all(level - 1, b.bins, t.words + 7, bin.past, bytes, table)
        }
    }
}

// Writes children one after the other, each one's link at its slot.
#[cycle(write_write_all)]
fn write_all(
    level: usize,
    n: usize,
    slot: usize,
    p: Place,
    bytes: &[u8],
    table: &mut [u64],
) -> Place
    requires { AllWritable bytes.now level n slot p (length table.old) }
    ensures { (Found result ≡ steps_of (trees_of (λ s q. tree_of (from_bytes bytes.now) level q) slot n p)) × (table.new ≡ laid_all level slot p.tally (trees_of (λ s q. tree_of (from_bytes bytes.now) level q) slot n p) table.old) }
{
    let mut here = p;
    for i in 0..n {
        let link = link_at(bytes, here);
        table[slot + i] = link as u64;
        here = write(level, here, bytes, table);
    }
    here
}
