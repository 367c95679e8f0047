// Probing the tree: a probe goes down its path, bin by bin, to the axes grid or the bin where it ends.
ghost use Rattle.std.specs.Prelude.{◌≡◌, true, ◌+◌, ◌≤◌, length, get_or};
ghost use Rattle.std.specs.Float.{binary64};
ghost use Rattle.std.specs.Float.Ieee.{mul};
ghost use Rattle.doubles.specs.Refusal.{paper};
ghost use Rattle.model.specs.Grid.{axes, bins};
ghost use Rattle.model.specs.Sound.{sound};
ghost use Rattle.model.specs.Probe.{through, probe_grid, probe_child};
ghost use Rattle.lent.specs.Lent.{LaidAt, BinsLaidAt, AxesLaidAt, ChildLaidAt, word_at, grid_in, hung_at, bins_at, head_in, axes_in};
ghost use Rattle.lent.specs.Sampled.{sound_child};
ghost use Rattle.lent.specs.Probed.{coordinates_of, path_from, ends_at};

use crate::probing;
use doubles::Refusal;
use lent::{Lent, Region, layout};

// Whether the path ends here and no coordinates are given.
fn ends_at(p: Region, depth: usize) -> bool
    ensures { result ≡ ends_at p depth }
{
    if depth < p.levels {
        return false;
    }
    let coordinates = p.coordinates;
    coordinates.many == 0
}

// A probe's weight times a bin's own; a refusal stays. Its promise is the definitions' `through`, shown once for each end of the walk.
fn through_bin(inverse: f64, probed: Result<f64, Refusal>) -> Result<f64, Refusal>
    ensures { paper result ≡ through (mul binary64 inverse) (paper probed) }
{
    Ok(inverse * probed?)
}

// A probe of the axes grid at word w. Refused: 4 where the path goes on; then as its axes.
fn probe_at_axes(m: Lent<'_>, w: usize, p: Region, depth: usize) -> Result<f64, Refusal>
    requires { AxesLaidAt m w × (sound (axes (axes_in m w)) ≡ true) }
    ensures { paper result ≡ probe_grid (axes (axes_in m.entry w)) (path_from p depth) (coordinates_of p.coordinates) }
{
    if depth < p.levels {
        return Err(Refusal::Form);
    }
    let g = layout::axes_place(m.table, w);
    let coordinates = p.coordinates;
    probing::probe_axes(m.reals, m.counts, g, coordinates)
}

// A probe of what hangs at a link: 1 where the path ends with no coordinates given. Refused: 4 where nothing hangs there.
#[cycle(probe_child_probe_from_bins_probe_grid)]
fn probe_child(
    m: Lent<'_>,
    level: usize,
    link: usize,
    p: Region,
    depth: usize,
) -> Result<f64, Refusal>
    requires { ChildLaidAt m level link × (depth + level ≤ 4)
        × (sound_child (hung_at m level link) ≡ true) }
    ensures { paper result ≡ probe_child (hung_at m.entry level link) (path_from p depth) (coordinates_of p.coordinates) }
{
    if ends_at(p, depth) {
        return Ok(1.0);
    }
    if link == 0 {
        return Err(Refusal::Form);
    }
    probe_grid(m, level, link, p, depth)
}

// A probe of the bins grid at word w, whose children have so many levels left. Refused: 4 where the path is at its end; 6 where the
// grid has no such bin.
#[cycle(probe_child_probe_from_bins_probe_grid)]
fn probe_from_bins(
    m: Lent<'_>,
    level: usize,
    w: usize,
    p: Region,
    depth: usize,
) -> Result<f64, Refusal>
    requires { BinsLaidAt m level w × (depth + level ≤ 3)
        × (sound (bins (head_in m w) (bins_at m level w)) ≡ true) }
    ensures { paper result ≡ probe_grid (bins (head_in m.entry w)
        (bins_at m.entry level w))
        (path_from p depth) (coordinates_of p.coordinates) }
{
    if p.levels <= depth {
        return Err(Refusal::Form);
    }
    let path = p.path;
    let bin = path[depth];
    let held = m.table[w + 2] as usize;
    if held <= bin {
        return Err(Refusal::Bin);
    }
    let first = m.table[w + 5] as usize + 14;
    let chance = m.reals[first + bin];
    let link = m.table[w + 7 + bin] as usize;
    let below = probe_child(m, level, link, p, depth + 1);
    through_bin(plain::inv(chance), below)
}

// A probe of the grid whose run begins at word w; its path has come so deep.
#[cycle(probe_child_probe_from_bins_probe_grid)]
pub fn probe_grid(
    m: Lent<'_>,
    level: usize,
    w: usize,
    p: Region,
    depth: usize,
) -> Result<f64, Refusal>
    requires { LaidAt m level w × (depth + level ≤ 4) × (sound (grid_in m level w) ≡ true) }
    ensures { paper result ≡ probe_grid (grid_in m.entry level w) (path_from p depth) (coordinates_of p.coordinates) }
{
    if m.table[w] == 1 {
        return probe_at_axes(m, w, p, depth);
    }
    probe_from_bins(m, level - 1, w, p, depth)
}
