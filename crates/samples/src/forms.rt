// Whether a sample has a grid's form: along its path the index at each level, then what hangs there; then the coordinates.
ghost use Rattle.std.specs.Prelude.{◌≡◌, ◌+◌, ◌-◌, ◌≤◌, ◌<◌, length, get_or};
ghost use Rattle.doubles.specs.Refusal.{fault_of};
ghost use Rattle.model.specs.Train.{fault_of as unfit_of, fault_of_child};
ghost use Rattle.model.specs.Grid.{bins};
ghost use Rattle.lent.specs.Lent.{LaidAt, BinsLaidAt, ChildLaidAt, grid_in, hung_at, bins_at, head_in, root_in};
ghost use Rattle.lent.specs.Trained.{form_fault, nothing_fault};
ghost use Rattle.lent.specs.Absorbed.{path_left, weights_left, places_in, form_of};

use crate::training;
use doubles::Refusal;
use lent::{Lent, Sample};

// At an axes grid: no path is left, one weight, and a coordinate in [0, 1] for each axis.
fn axes_fault(table: &[u64], w: usize, s: &Sample, depth: usize) -> Result<(), Refusal>
    requires { (w + 11 ≤ length table.now) × (get_or table.now (w + 2) 0 ≤ 8) × (depth ≤ 4) }
    ensures { fault_of result ≡ form_fault (get_or table.now (w + 2) 0) (path_left s.now depth) (weights_left s.now depth) (places_in s.now) }
{
    if depth < s.levels {
        return Err(Refusal::Form);
    }
    if s.given != depth + 1 {
        return Err(Refusal::Form);
    }
    if s.axes != table[w + 2] as usize {
        return Err(Refusal::Form);
    }
    if !training::are_all(&s.coordinates, s.axes, axis::scans::in_unit) {
        return Err(Refusal::Coordinate);
    }
    Ok(())
}

// At nothing: nothing is left of the sample.
fn nothing_fault(s: &Sample, depth: usize) -> Result<(), Refusal>
    ensures { fault_of result ≡ nothing_fault (path_left s.now depth) (weights_left s.now depth) (places_in s.now) }
{
    if depth < s.levels {
        return Err(Refusal::Form);
    }
    if depth < s.given {
        return Err(Refusal::Form);
    }
    if 0 < s.axes {
        return Err(Refusal::Form);
    }
    Ok(())
}

// At what hangs at a link.
#[cycle(bins_fault_child_fault_grid_fault)]
fn child_fault(
    m: Lent<'_>,
    level: usize,
    link: usize,
    s: &Sample,
    depth: usize,
) -> Result<(), Refusal>
    requires { ChildLaidAt m level link × (depth + level ≤ 4) }
    ensures { fault_of result ≡ fault_of_child (hung_at m.entry level link) (path_left s.now depth) (weights_left s.now depth) (places_in s.now) }
{
    if link == 0 {
        return nothing_fault(s, depth);
    }
    grid_fault(m, level, link, s, depth)
}

// At a bins grid: an index is left (4), it is a bin's (6), a weight is left (4); then what hangs there.
#[cycle(bins_fault_child_fault_grid_fault)]
fn bins_fault(m: Lent<'_>, level: usize, w: usize, s: &Sample, depth: usize) -> Result<(), Refusal>
    requires { BinsLaidAt m level w × (depth + level ≤ 3) }
    ensures { fault_of result ≡ unfit_of (bins (head_in m.entry w)
        (bins_at m.entry level w))
        (path_left s.now depth) (weights_left s.now depth) (places_in s.now) }
{
    if s.levels <= depth {
        return Err(Refusal::Form);
    }
    let bin = s.path[depth];
    if m.table[w + 2] as usize <= bin {
        return Err(Refusal::Bin);
    }
    if s.given <= depth {
        return Err(Refusal::Form);
    }
    let link = m.table[w + 7 + bin] as usize;
    child_fault(m, level, link, s, depth + 1)
}

// At the grid whose run begins at word w, below `depth` bins grids: 4, 5 or 6.
#[cycle(bins_fault_child_fault_grid_fault)]
pub fn grid_fault(
    m: Lent<'_>,
    level: usize,
    w: usize,
    s: &Sample,
    depth: usize,
) -> Result<(), Refusal>
    requires { LaidAt m level w × (depth + level ≤ 4) }
    ensures { fault_of result ≡ unfit_of (grid_in m.entry level w) (path_left s.now depth) (weights_left s.now depth) (places_in s.now) }
{
    if m.table[w] == 1 {
        return axes_fault(m.table, w, s, depth);
    }
    bins_fault(m, level - 1, w, s, depth)
}

// Of a whole sample at the root.
pub fn fault_of(m: Lent<'_>, s: &Sample) -> Result<(), Refusal>
    requires { LaidAt m 4 0 }
    ensures { fault_of result ≡ form_of (root_in m.entry) s.now }
{
    grid_fault(m, 4, 0, s, 0)
}
