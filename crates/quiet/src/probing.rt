// Probing the axes of a grid: the weight at a point, or over the region that open coordinates leave.
ghost use Rattle.std.specs.Prelude.{◌≡◌, true, cond, ◌||◌};
ghost use Rattle.std.specs.Float.{binary64};
ghost use Rattle.std.specs.Float.Ieee.{mul};
ghost use Rattle.doubles.specs.Numbers.{one64};
ghost use Rattle.axis.specs.Edges.{well_formed, in_unit, bin_of, weight_of};
ghost use Rattle.doubles.specs.Refusal.{paper};
ghost use Rattle.model.specs.Draw.{floored_of};
ghost use Rattle.model.specs.Probe.{probe_all, through};
ghost use Rattle.lent.specs.Drawn.{axes_at, Stands};
ghost use Rattle.lent.specs.Probed.{coordinates_of, probed_of};

use doubles::Refusal;
use lent::{AxesAt, Coordinates};

// Whether a coordinate is open or a number in [0, 1].
fn is_fit(free: bool, x: f64) -> bool
    ensures { result ≡ (free || in_unit x) }
{
    if free {
        return true;
    }
    axis::scans::in_unit(x)
}

// The weight so far with an axis's own: an open coordinate has factor 1.
fn weigh_on(edges: &[f64], free: bool, x: f64, weight: f64) -> f64
    requires { (well_formed edges.now ≡ true) × ((free || in_unit x) ≡ true) }
    ensures { result ≡ cond free weight (mul binary64 weight (weight_of edges.now (bin_of edges.now x))) }
{
    if free {
        return weight;
    }
    weight * axis::edges::weight_of(edges, axis::edges::bin_of(edges, x))
}

// The product of the axes' weights. Refused: 5 at the first coordinate that is no number in [0, 1].
fn weigh_axes(reals: &[f64], counts: &[u64], g: AxesAt, p: Coordinates) -> Result<f64, Refusal>
    requires { Stands reals.now counts.now g × (p.many ≡ g.axes) }
    ensures { paper result ≡ probe_all (axes_at reals.now counts.now g) (coordinates_of p) one64 }
{
    let mut weight = 1.0;
    let mut left = g;
    for done in 0..g.axes {
        let free = p.free[done];
        let x = p.at[done];
        if !is_fit(free, x) {
            return Err(Refusal::Coordinate);
        }
        let place = left.counts;
        let held = counts[place] as usize;
        let start = left.reals;
        let end = start + held + 1;
        weight = weigh_on(&reals[start..end], free, x, weight);
        left = crate::onward::after_first(left);
    }
    Ok(weight)
}

// A probe's weight under a floor; a refusal stays. Its promise is the definitions' `through`, as in `descent`.
fn under_floor(floor: f64, probed: Result<f64, Refusal>) -> Result<f64, Refusal>
    ensures { paper result ≡ through (floored_of floor) (paper probed) }
{
    Ok(ground::floors::floored(floor, probed?))
}

// The weight at the coordinates, under the grid's floor. Refused: 4 where there is not one for each axis; 5.
pub fn probe_axes(reals: &[f64], counts: &[u64], g: AxesAt, p: Coordinates) -> Result<f64, Refusal>
    requires { Stands reals.now counts.now g }
    ensures { paper result ≡ probed_of g.floor (axes_at reals.now counts.now g) (coordinates_of p) }
{
    if p.many != g.axes {
        return Err(Refusal::Form);
    }
    under_floor(g.floor, weigh_axes(reals, counts, g, p))
}
