// Merging a tree into another in lent memory, once nothing stands against it: what a grid keeps of its own, then what hangs below it.
ghost use Rattle.std.specs.Prelude.{◌≡◌, ◌+◌, ◌≤◌, ◌<◌, length, get_or};
ghost use Rattle.lent.specs.Memory.{memory};
ghost use Rattle.lent.specs.Lent.{LaidAt, BinsLaidAt, AxesLaidAt, ChildLaidAt, word_at};
ghost use Rattle.lent.specs.Tree.{AxesLaid, BinsLaid, Laid};
ghost use Rattle.lent.specs.Sampled.{ChildLaid};
ghost use Rattle.lent.specs.United.{joined_record, united_axes, united_own, united_child, united_children, united_grid, OwnRoom};

use crate::{bins, merging};
use ground::accounts;
use lent::{Lent, layout};

// The record at r and c takes the waiting samples of the other's at q and d.
fn join_account(
    reals: &mut [f64],
    counts: &mut [u64],
    r: usize,
    c: usize,
    o: Lent<'_>,
    q: usize,
    d: usize,
)
    requires { (r + 14 ≤ length reals.old) × (c + 7 ≤ length counts.old) × (q + 14 ≤ length o.reals.now) × (d + 7 ≤ length o.counts.now) }
    ensures { memory reals.new counts.new ≡
        joined_record r c q d (memory o.entry.reals.now o.entry.counts.now) (memory reals.old counts.old) }
{
    let mine = accounts::load(reals, counts, r, c);
    let joining = accounts::load(o.reals, o.counts, q, d);
    if let Ok(after) = mine.merge_samples_no_reset(joining) {
        accounts::store(reals, counts, r, c, after);
    }
}

// Two axes grids of as many axes: their own accumulators, then axis by axis.
fn merge_axes_grid(
    table: &[u64],
    reals: &mut [f64],
    counts: &mut [u64],
    w: usize,
    o: Lent<'_>,
    v: usize,
)
    requires { AxesLaid table.now (length reals.old) (length counts.old) w × AxesLaidAt o v }
    ensures { memory reals.new counts.new ≡
        united_axes table.now o.entry.table.now (memory o.entry.reals.now o.entry.counts.now) w v (memory reals.old counts.old) }
{
    let r = table[w + 9] as usize;
    let c = table[w + 10] as usize;
    let q = o.table[v + 9] as usize;
    let d = o.table[v + 10] as usize;
    let g = layout::axes_place(table, w);
    let far = layout::axes_place(o.table, v);
    if g.axes != far.axes {
        return;
    }
    join_account(reals, counts, r, c, o, q, d);
    merging::merge_axes(reals, counts, g, o.reals, o.counts, far);
}

// Two bins grids' own, of as many bins: their accumulators, then bin by bin.
fn merge_own(table: &[u64], reals: &mut [f64], counts: &mut [u64], w: usize, o: Lent<'_>, v: usize)
    requires { OwnRoom table.now (length reals.old) (length counts.old) w × OwnRoom o.table.now (length o.reals.now) (length o.counts.now) v
        × (get_or table.now (w + 2) 0 ≡ word_at o (v + 2)) }
    ensures { memory reals.new counts.new ≡
        united_own table.now o.entry.table.now (memory o.entry.reals.now o.entry.counts.now) w v (memory reals.old counts.old) }
{
    let n = table[w + 2] as usize;
    let r = table[w + 5] as usize;
    let c = table[w + 6] as usize;
    let q = o.table[v + 5] as usize;
    let d = o.table[v + 6] as usize;
    join_account(reals, counts, r, c, o, q, d);
    for i in 0..n {
        let b = bins::bin_place(table, w, i);
        let far = bins::bin_place(o.table, v, i);
        join_account(reals, counts, b.reals, b.counts, o, far.reals, far.counts);
    }
}

// What hangs at two links: nothing where one of them is 0.
#[cycle(merge_child_merge_children_merge_grid)]
fn merge_child(
    table: &[u64],
    reals: &mut [f64],
    counts: &mut [u64],
    level: usize,
    link: usize,
    o: Lent<'_>,
    far: usize,
)
    requires { ChildLaid level table.now (length reals.old) (length counts.old) link × ChildLaidAt o level far }
    ensures { memory reals.new counts.new ≡
        united_child table.now o.entry.table.now (memory o.entry.reals.now o.entry.counts.now)
        (united_grid table.now o.entry.table.now (memory o.entry.reals.now o.entry.counts.now) level) link far (memory reals.old counts.old) }
{
    if link == 0 {
        return;
    }
    if far == 0 {
        return;
    }
    merge_grid(table, reals, counts, level, link, o, far);
}

// What hangs at the links of two bins grids, one after the other.
#[cycle(merge_child_merge_children_merge_grid)]
fn merge_children(
    table: &[u64],
    reals: &mut [f64],
    counts: &mut [u64],
    level: usize,
    w: usize,
    o: Lent<'_>,
    v: usize,
)
    requires { BinsLaid (Laid level table.now (length reals.old) (length counts.old)) table.now (length reals.old) (length counts.old) w
        × BinsLaidAt o level v
        × (get_or table.now (w + 2) 0 ≡ word_at o (v + 2)) }
    ensures { memory reals.new counts.new ≡
        united_children table.now o.entry.table.now (memory o.entry.reals.now o.entry.counts.now)
        (united_grid table.now o.entry.table.now (memory o.entry.reals.now o.entry.counts.now) level) w v 0 (get_or table.now (w + 2) 0) (memory reals.old counts.old) }
{
    let n = table[w + 2] as usize;
    for i in 0..n {
        let link = table[w + 7 + i] as usize;
        let far = o.table[v + 7 + i] as usize;
        merge_child(table, reals, counts, level, link, o, far);
    }
}

// The grid whose run begins at word w takes the waiting samples of the other whose run begins at word v, with all below it.
#[cycle(merge_child_merge_children_merge_grid)]
pub fn merge_grid(
    table: &[u64],
    reals: &mut [f64],
    counts: &mut [u64],
    level: usize,
    w: usize,
    o: Lent<'_>,
    v: usize,
)
    requires { Laid level table.now (length reals.old) (length counts.old) w × LaidAt o level v }
    ensures { memory reals.new counts.new ≡
        united_grid table.now o.entry.table.now (memory o.entry.reals.now o.entry.counts.now) level w v (memory reals.old counts.old) }
{
    if table[w] == 1 {
        if o.table[v] != 1 {
            return;
        }
        merge_axes_grid(table, reals, counts, w, o, v);
        return;
    }
    if o.table[v] == 1 {
        return;
    }
    if table[w + 2] != o.table[v + 2] {
        return;
    }
    let below = level - 1;
    merge_own(table, reals, counts, w, o, v);
    merge_children(table, reals, counts, below, w, o, v);
}
