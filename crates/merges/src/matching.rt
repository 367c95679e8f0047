// Whether two trees may be merged: what stands against it, 4, 11 or 8, each over both trees before the next.
ghost use Rattle.std.specs.Prelude.{◌≡◌, true, ◌+◌, ◌≤◌, ◌<◌, length};
ghost use Rattle.std.specs.Float.Ieee.{eq};
ghost use Rattle.doubles.specs.Refusal.{fault_of};
ghost use Rattle.accumulator.specs.Record.{well_formed};
ghost use Rattle.accumulator.specs.Steps.{merged_of};
ghost use Rattle.model.specs.Grid.{axes, bins};
ghost use Rattle.model.specs.Sound.{sound};
ghost use Rattle.lent.specs.Memory.{record_at};
ghost use Rattle.lent.specs.Lent.{LaidAt, BinsLaidAt, AxesLaidAt, ChildLaidAt, word_at, grid_in, hung_at, bins_at, head_in, bin_of, axes_in};
ghost use Rattle.lent.specs.Judged.{sound_bin};
ghost use Rattle.lent.specs.Sampled.{sound_child};
ghost use Rattle.lent.specs.Matched.{obstacle, worse_of, grid_obstacle, child_obstacle, bin_obstacle, BinRoom};

use crate::{bins, merging};
use doubles::Refusal;
use ground::accounts;
use lent::{Lent, layout};

// Of two findings the one that comes first: 4, 11, 8.
fn worse(a: Result<(), Refusal>, b: Result<(), Refusal>) -> Result<(), Refusal>
    ensures { fault_of result ≡ worse_of (fault_of a) (fault_of b) }
{
    let form = Err(Refusal::Form);
    if a == form || b == form {
        return form;
    }
    let unequal = Err(Refusal::Unequal);
    if a == unequal || b == unequal {
        return unequal;
    }
    let overflow = Err(Refusal::Overflow);
    if a == overflow {
        return overflow;
    }
    b
}

// What is found of two of the same shape: 11 where their numbers differ, 8 where what they make would not be kept.
fn found_of(equal: bool, fits: bool) -> Result<(), Refusal>
    ensures { fault_of result ≡ obstacle true equal fits }
{
    if !equal {
        return Err(Refusal::Unequal);
    }
    if !fits {
        return Err(Refusal::Overflow);
    }
    Ok(())
}

// Whether the record at r and c may be kept with the waiting samples of the other at q and d, both being well formed.
fn account_fits(m: Lent<'_>, r: usize, c: usize, o: Lent<'_>, q: usize, d: usize) -> bool
    requires { (r + 14 ≤ length m.reals.now) × (c + 7 ≤ length m.counts.now) × (q + 14 ≤ length o.reals.now) × (d + 7 ≤ length o.counts.now)
        × (well_formed (record_at m.reals.now m.counts.now r c) ≡ true) × (well_formed (record_at o.reals.now o.counts.now q d) ≡ true) }
    ensures { result ≡ well_formed (merged_of (record_at m.entry.reals.now m.entry.counts.now r c) (record_at o.entry.reals.now o.entry.counts.now q d)) }
{
    let mine = accounts::load(m.reals, m.counts, r, c);
    let joining = accounts::load(o.reals, o.counts, q, d);
    mine.merge_samples_no_reset(joining).is_ok()
}

// Two axes grids: the bins of each axis, floors and edges, then their accumulators and the axes' bins.
fn axes_obstacle(m: Lent<'_>, w: usize, o: Lent<'_>, v: usize) -> Result<(), Refusal>
    requires { AxesLaidAt m w × AxesLaidAt o v
        × (sound (axes (axes_in m w)) ≡ true) × (sound (axes (axes_in o v)) ≡ true) }
    ensures { fault_of result ≡ grid_obstacle (axes (axes_in m.entry w)) (axes (axes_in o.entry v)) }
{
    let g = layout::axes_place(m.table, w);
    let far = layout::axes_place(o.table, v);
    if !merging::same_lengths(m.reals, m.counts, g, o.reals, o.counts, far) {
        return Err(Refusal::Form);
    }
    let same_floor = g.floor == far.floor;
    if !same_floor {
        return Err(Refusal::Unequal);
    }
    if !merging::equal_edges(m.reals, m.counts, g, o.reals, o.counts, far) {
        return Err(Refusal::Unequal);
    }
    let r = m.table[w + 9] as usize;
    let c = m.table[w + 10] as usize;
    let q = o.table[v + 9] as usize;
    let d = o.table[v + 10] as usize;
    if !account_fits(m, r, c, o, q, d) {
        return Err(Refusal::Overflow);
    }
    if !merging::merged_fit(m.reals, m.counts, g, o.reals, o.counts, far) {
        return Err(Refusal::Overflow);
    }
    Ok(())
}

// Two bins' own: their probabilities, then their accumulators.
fn bin_own_obstacle(m: Lent<'_>, w: usize, o: Lent<'_>, v: usize, i: usize) -> Result<(), Refusal>
    requires { BinRoom m.table.now (length m.reals.now) (length m.counts.now) w i × BinRoom o.table.now (length o.reals.now) (length o.counts.now) v i
        × (well_formed (bin_of m w i).own ≡ true) × (well_formed (bin_of o v i).own ≡ true) }
    ensures { fault_of result ≡ obstacle true
        (eq (bin_of m.entry w i).probability (bin_of o.entry v i).probability)
        (well_formed (merged_of (bin_of m.entry w i).own (bin_of o.entry v i).own)) }
{
    let b = bins::bin_place(m.table, w, i);
    let far = bins::bin_place(o.table, v, i);
    let fits = account_fits(m, b.reals, b.counts, o, far.reals, far.counts);
    let at = b.chance;
    let from = far.chance;
    let equal = m.reals[at] == o.reals[from];
    found_of(equal, fits)
}

// Two bins i and what hangs there.
#[cycle(bin_obstacle_bins_obstacle_child_obstacle_grid_obstacle)]
fn bin_obstacle(
    m: Lent<'_>,
    level: usize,
    w: usize,
    o: Lent<'_>,
    v: usize,
    i: usize,
) -> Result<(), Refusal>
    requires { BinsLaidAt m level w × BinsLaidAt o level v
        × (i < word_at m (w + 2)) × (i < word_at o (v + 2))
        × (sound_bin (bin_of m w i) (hung_at m level (word_at m (w + 7 + i))) ≡ true)
        × (sound_bin (bin_of o v i) (hung_at o level (word_at o (v + 7 + i))) ≡ true) }
    ensures { fault_of result ≡ bin_obstacle (bin_of m.entry w i)
        (hung_at m.entry level (word_at m.entry (w + 7 + i)))
        (bin_of o.entry v i)
        (hung_at o.entry level (word_at o.entry (v + 7 + i))) }
{
    let link = m.table[w + 7 + i] as usize;
    let far = o.table[v + 7 + i] as usize;
    let own = bin_own_obstacle(m, w, o, v, i);
    let below = child_obstacle(m, level, link, o, far);
    worse(own, below)
}

// What hangs at two links.
#[cycle(bin_obstacle_bins_obstacle_child_obstacle_grid_obstacle)]
fn child_obstacle(
    m: Lent<'_>,
    level: usize,
    link: usize,
    o: Lent<'_>,
    far: usize,
) -> Result<(), Refusal>
    requires { ChildLaidAt m level link × ChildLaidAt o level far
        × (sound_child (hung_at m level link) ≡ true) × (sound_child (hung_at o level far) ≡ true) }
    ensures { fault_of result ≡ child_obstacle (hung_at m.entry level link) (hung_at o.entry level far) }
{
    if link == 0 {
        if far == 0 {
            return Ok(());
        }
        return Err(Refusal::Form);
    }
    if far == 0 {
        return Err(Refusal::Form);
    }
    grid_obstacle(m, level, link, o, far)
}

// Two bins grids: the numbers of their bins, their accumulators, and bin by bin.
#[cycle(bin_obstacle_bins_obstacle_child_obstacle_grid_obstacle)]
fn bins_obstacle(m: Lent<'_>, level: usize, w: usize, o: Lent<'_>, v: usize) -> Result<(), Refusal>
    requires { BinsLaidAt m level w × BinsLaidAt o level v
        × (sound (bins (head_in m w) (bins_at m level w)) ≡ true)
        × (sound (bins (head_in o v) (bins_at o level v)) ≡ true) }
    ensures { fault_of result ≡ grid_obstacle
        (bins (head_in m.entry w) (bins_at m.entry level w))
        (bins (head_in o.entry v) (bins_at o.entry level v)) }
{
    let n = m.table[w + 2] as usize;
    let many = o.table[v + 2] as usize;
    if n != many {
        return Err(Refusal::Form);
    }
    let r = m.table[w + 5] as usize;
    let c = m.table[w + 6] as usize;
    let q = o.table[v + 5] as usize;
    let d = o.table[v + 6] as usize;
    let fits = account_fits(m, r, c, o, q, d);
    let mut found = found_of(true, fits);
    for i in 0..n {
        let here = bin_obstacle(m, level, w, o, v, i);
        found = worse(found, here);
    }
    found
}

// The grids whose runs begin at words w and v: what stands first against a merge of all that they hold.
#[cycle(bin_obstacle_bins_obstacle_child_obstacle_grid_obstacle)]
pub fn grid_obstacle(
    m: Lent<'_>,
    level: usize,
    w: usize,
    o: Lent<'_>,
    v: usize,
) -> Result<(), Refusal>
    requires { LaidAt m level w × LaidAt o level v
        × (sound (grid_in m level w) ≡ true) × (sound (grid_in o level v) ≡ true) }
    ensures { fault_of result ≡ grid_obstacle (grid_in m.entry level w) (grid_in o.entry level v) }
{
    if m.table[w] == 1 {
        if o.table[v] == 1 {
            return axes_obstacle(m, w, o, v);
        }
        return Err(Refusal::Form);
    }
    if o.table[v] == 1 {
        return Err(Refusal::Form);
    }
    bins_obstacle(m, level - 1, w, o, v)
}
