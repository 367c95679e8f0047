// Whether what a sample would leave may be kept (8), judged on what it touches, before anything is written; the bins on the axes are found on the way.
// Sample, evaluation and number come one by one, here and in `absorbing`, as `train` has them and the definitions name them.
ghost use Rattle.std.specs.Prelude.{◌≡◌, true, ◌+◌, ◌≤◌, length};
ghost use Rattle.doubles.specs.Refusal.{fault_of};
ghost use Rattle.model.specs.Grid.{axes, bins};
ghost use Rattle.model.specs.Sound.{sound, kept_grid, kept_child};
ghost use Rattle.model.specs.Train.{train_grid, train_child, train_of};
ghost use Rattle.lent.specs.Lent.{LaidAt, BinsLaidAt, AxesLaidAt, ChildLaidAt, grid_in, hung_at, bins_at, head_in, axes_in, root_in};
ghost use Rattle.lent.specs.Sampled.{sample_of};
ghost use Rattle.lent.specs.Absorbed.{path_left, weights_left, places_in, form_of, Takes, TakesChild, objection_of};
ghost use Rattle.lent.specs.Found.{Found, FoundChild};

use crate::reading::place_at;
use crate::{adding, training};
use doubles::Refusal;
use lent::{Lent, Sample};

// At an axes grid: its own accumulator and a bin of each axis.
fn axes_accept(
    m: Lent<'_>,
    w: usize,
    s: &Sample,
    depth: usize,
    evaluation: f64,
    number: u64,
    spots: &mut [usize; 8],
) -> bool
    requires { AxesLaidAt m w × (depth ≤ 4) × Takes (axes (axes_in m w)) s.now depth number × (length spots.old ≡ 8) }
    ensures { (result ≡ kept_grid (train_grid (axes (axes_in m.entry w)) (path_left s.now depth) (weights_left s.now depth) (places_in s.now) evaluation number))
        × Found spots.new (axes (axes_in m.entry w)) s.now depth }
{
    let weight = s.weights[depth];
    let g = place_at(m.table, w);
    let fit = training::axes_fit(
        m.reals,
        m.counts,
        g,
        &s.coordinates,
        weight * evaluation,
        spots,
    );
    let r = m.table[w + 9] as usize;
    let c = m.table[w + 10] as usize;
    let own = adding::fits_with(m.reals, m.counts, r, c, evaluation * weight, number);
    own & fit
}

// At what hangs at a link.
#[cycle(bins_accept_child_accepts_grid_accepts)]
fn child_accepts(
    m: Lent<'_>,
    level: usize,
    link: usize,
    s: &Sample,
    depth: usize,
    evaluation: f64,
    number: u64,
    spots: &mut [usize; 8],
) -> bool
    requires { ChildLaidAt m level link × (depth + level ≤ 4) × TakesChild (hung_at m level link) s.now depth number × (length spots.old ≡ 8) }
    ensures { (result ≡ kept_child (train_child (hung_at m.entry level link) (path_left s.now depth) (weights_left s.now depth) (places_in s.now) evaluation number))
        × FoundChild spots.new (hung_at m.entry level link) s.now depth }
{
    if link == 0 {
        return true;
    }
    grid_accepts(m, level, link, s, depth, evaluation, number, spots)
}

// At a bins grid: its own accumulator, that of the sample's bin, and what hangs there.
#[cycle(bins_accept_child_accepts_grid_accepts)]
fn bins_accept(
    m: Lent<'_>,
    level: usize,
    w: usize,
    s: &Sample,
    depth: usize,
    evaluation: f64,
    number: u64,
    spots: &mut [usize; 8],
) -> bool
    requires { BinsLaidAt m level w × (depth + level ≤ 3)
        × Takes (bins (head_in m w) (bins_at m level w)) s.now depth number × (length spots.old ≡ 8) }
    ensures { (result ≡ kept_grid (train_grid (bins (head_in m.entry w)
        (bins_at m.entry level w))
        (path_left s.now depth) (weights_left s.now depth) (places_in s.now) evaluation number))
        × Found spots.new (bins (head_in m.entry w) (bins_at m.entry level w)) s.now depth }
{
    let bin = s.path[depth];
    let weight = s.weights[depth];
    let n = m.table[w + 2] as usize;
    let r = m.table[w + 5] as usize;
    let c = m.table[w + 6] as usize;
    let value = (weight * m.reals[r + 14 + bin]) * evaluation;
    let own = adding::fits_with(m.reals, m.counts, r, c, evaluation * weight, number);
    let inner_r = r + 14 + n + 14 * bin;
    let inner_c = c + 7 + 7 * bin;
    let inner = adding::fits_with(m.reals, m.counts, inner_r, inner_c, value, number);
    let link = m.table[w + 7 + bin] as usize;
    let below = child_accepts(m, level, link, s, depth + 1, evaluation, number, spots);
    own & (inner & below)
}

// At the grid whose run begins at word w, below `depth` bins grids.
#[cycle(bins_accept_child_accepts_grid_accepts)]
pub fn grid_accepts(
    m: Lent<'_>,
    level: usize,
    w: usize,
    s: &Sample,
    depth: usize,
    evaluation: f64,
    number: u64,
    spots: &mut [usize; 8],
) -> bool
    requires { LaidAt m level w × (depth + level ≤ 4) × Takes (grid_in m level w) s.now depth number × (length spots.old ≡ 8) }
    ensures { (result ≡ kept_grid (train_grid (grid_in m.entry level w) (path_left s.now depth) (weights_left s.now depth) (places_in s.now) evaluation number))
        × Found spots.new (grid_in m.entry level w) s.now depth }
{
    if m.table[w] == 1 {
        return axes_accept(m, w, s, depth, evaluation, number, spots);
    }
    bins_accept(m, level - 1, w, s, depth, evaluation, number, spots)
}

// What stands against a sample on a well-formed state: 3; its form's fault, 4, 5 or 6; 7; 8.
pub fn objection(
    m: Lent<'_>,
    s: &Sample,
    evaluation: f64,
    number: u64,
    spots: &mut [usize; 8],
    form: Result<(), Refusal>,
) -> Result<(), Refusal>
    requires { LaidAt m 4 0 × (sound (root_in m) ≡ true)
        × (fault_of form ≡ form_of (root_in m) s.now) × (length spots.old ≡ 8) }
    ensures { (fault_of result ≡ objection_of (train_of (root_in m.entry) (sample_of s.now) evaluation number))
        × (fault_of result ≡ 0 → Found spots.new (root_in m.entry) s.now 0) }
{
    if number == 0 {
        return Err(Refusal::Range);
    }
    if 9007199254740992 < number {
        return Err(Refusal::Range);
    }
    form?;
    if !plain::finite(evaluation) {
        return Err(Refusal::Infinite);
    }
    if !training::are_all(&s.weights, s.given, plain::finite) {
        return Err(Refusal::Infinite);
    }
    if !grid_accepts(m, 4, 0, s, 0, evaluation, number, spots) {
        return Err(Refusal::Overflow);
    }
    Ok(())
}
