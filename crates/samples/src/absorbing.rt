// A sample taken into the tree: a bins grid's records gain before what hangs below takes the sample, so that nothing is kept across the
// recursion; what hangs below lies past them, and sees memory as it was.
ghost use Rattle.std.specs.Prelude.{◌≡◌, true, ◌+◌, ◌≤◌, length, get_or};
ghost use Rattle.doubles.specs.Refusal.{fault_of};
ghost use Rattle.model.specs.Grid.{axes, bins};
ghost use Rattle.model.specs.Sound.{sound};
ghost use Rattle.model.specs.Train.{train_of};
ghost use Rattle.lent.specs.State.{root_of};
ghost use Rattle.lent.specs.Memory.{memory};
ghost use Rattle.lent.specs.Tree.{axes_grid_at, head_at, child_in, bins_in, grid_at, AxesLaid, BinsLaid, Laid};
ghost use Rattle.lent.specs.Sampled.{sample_of, ChildLaid};
ghost use Rattle.lent.specs.Absorbed.{form_of, absorbed_axes, absorbed_child, absorbed_bins, absorbed, objection_of, admitted};
ghost use Rattle.lent.specs.Found.{Held, HeldChild};

use crate::reading::place_at;
use crate::{acceptance, adding, training};
use doubles::Refusal;
use lent::{Lent, Sample};

// At an axes grid: a bin of each axis, then its own accumulator.
fn absorb_axes(
    table: &[u64],
    reals: &mut [f64],
    counts: &mut [u64],
    w: usize,
    s: &Sample,
    depth: usize,
    evaluation: f64,
    number: u64,
    spots: &[usize; 8],
)
    requires { AxesLaid table.now (length reals.old) (length counts.old) w × (depth ≤ 4) × Held s.now spots.now (axes (axes_grid_at table.now reals.old counts.old w)) depth number }
    ensures { memory reals.new counts.new ≡ absorbed_axes table.now s.now evaluation number w depth (memory reals.old counts.old) }
{
    let weight = s.weights[depth];
    let g = place_at(table, w);
    let r = table[w + 9] as usize;
    let c = table[w + 10] as usize;
    let own = adding::gain_at(reals, counts, r, c, evaluation * weight, number);
    training::train_axes(reals, counts, g, spots, weight * evaluation);
    adding::put(reals, counts, r, c, own);
}

// At what hangs at a link: nothing where it is 0.
#[cycle(absorb_bins_absorb_child_absorb_grid)]
fn absorb_child(
    table: &[u64],
    reals: &mut [f64],
    counts: &mut [u64],
    level: usize,
    link: usize,
    s: &Sample,
    depth: usize,
    evaluation: f64,
    number: u64,
    spots: &[usize; 8],
)
    requires { ChildLaid level table.now (length reals.old) (length counts.old) link × (depth + level ≤ 4) × HeldChild s.now spots.now (child_in (grid_at level table.now reals.old counts.old) link) depth number }
    ensures { memory reals.new counts.new ≡ absorbed_child (absorbed level table.now s.now evaluation number) link depth (memory reals.old counts.old) }
{
    if link == 0 {
        return;
    }
    absorb_grid(
        table, reals, counts, level, link, s, depth, evaluation, number, spots,
    );
}

// At a bins grid: the accumulator of the sample's bin and its own, then what hangs at that bin.
#[cycle(absorb_bins_absorb_child_absorb_grid)]
fn absorb_bins(
    table: &[u64],
    reals: &mut [f64],
    counts: &mut [u64],
    level: usize,
    w: usize,
    s: &Sample,
    depth: usize,
    evaluation: f64,
    number: u64,
    spots: &[usize; 8],
)
    requires { BinsLaid (Laid level table.now (length reals.old) (length counts.old)) table.now (length reals.old) (length counts.old) w × (depth + level ≤ 3)
        × Held s.now spots.now (bins (head_at table.now reals.old counts.old w) (bins_in (grid_at level table.now reals.old counts.old) table.now reals.old counts.old w 0 (get_or table.now (w + 2) 0))) depth number }
    ensures { memory reals.new counts.new ≡ absorbed_bins (absorbed level table.now s.now evaluation number) table.now s.now evaluation number w depth (memory reals.old counts.old) }
{
    let bin = s.path[depth];
    let weight = s.weights[depth];
    let n = table[w + 2] as usize;
    let r = table[w + 5] as usize;
    let c = table[w + 6] as usize;
    let link = table[w + 7 + bin] as usize;
    let value = (weight * reals[r + 14 + bin]) * evaluation;
    let own = adding::gain_at(reals, counts, r, c, evaluation * weight, number);
    let inner_r = r + 14 + n + 14 * bin;
    let inner_c = c + 7 + 7 * bin;
    let inner = adding::gain_at(reals, counts, inner_r, inner_c, value, number);
    adding::put(reals, counts, inner_r, inner_c, inner);
    adding::put(reals, counts, r, c, own);
    absorb_child(
        table,
        reals,
        counts,
        level,
        link,
        s,
        depth + 1,
        evaluation,
        number,
        spots,
    );
}

// At the grid whose run begins at word w, below `depth` bins grids.
#[cycle(absorb_bins_absorb_child_absorb_grid)]
pub fn absorb_grid(
    table: &[u64],
    reals: &mut [f64],
    counts: &mut [u64],
    level: usize,
    w: usize,
    s: &Sample,
    depth: usize,
    evaluation: f64,
    number: u64,
    spots: &[usize; 8],
)
    requires { Laid level table.now (length reals.old) (length counts.old) w × (depth + level ≤ 4) × Held s.now spots.now (grid_at level table.now reals.old counts.old w) depth number }
    ensures { memory reals.new counts.new ≡ absorbed level table.now s.now evaluation number w depth (memory reals.old counts.old) }
{
    if table[w] == 1 {
        absorb_axes(table, reals, counts, w, s, depth, evaluation, number, spots);
        return;
    }
    absorb_bins(
        table,
        reals,
        counts,
        level - 1,
        w,
        s,
        depth,
        evaluation,
        number,
        spots,
    );
}

// Takes a sample into a well-formed state where nothing stands against it. Its form was judged, or is known.
pub fn admit(
    table: &[u64],
    reals: &mut [f64],
    counts: &mut [u64],
    s: &Sample,
    evaluation: f64,
    number: u64,
    spots: &mut [usize; 8],
    form: Result<(), Refusal>,
) -> Result<(), Refusal>
    requires { Laid 4 table.now (length reals.old) (length counts.old) 0 × (sound (root_of table.now reals.old counts.old) ≡ true)
        × (fault_of form ≡ form_of (root_of table.now reals.old counts.old) s.now) × (length spots.old ≡ 8) }
    ensures { (fault_of result ≡ objection_of (train_of (root_of table.now reals.old counts.old) (sample_of s.now) evaluation number))
        × (memory reals.new counts.new ≡ admitted (fault_of result) table.now s.now evaluation number (memory reals.old counts.old)) }
{
    let m = Lent {
        table,
        reals,
        counts,
    };
    acceptance::objection(m, s, evaluation, number, spots, form)?;
    absorb_grid(table, reals, counts, 4, 0, s, 0, evaluation, number, spots);
    Ok(())
}
