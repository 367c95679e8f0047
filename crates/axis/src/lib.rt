// One axis on its own stretches of lent memory: its edges, the search for a bin, the probe and the draw.
//
// `probe` and `draw` judge the edges they are given. The functions of `edges` and `scans` judge nothing and answer on any list,
// for calls that judge once and go on.
#![tactic(auto)]

pub mod edges;
pub mod scans;

ghost use Rattle.std.specs.Prelude.{◌≡◌};
ghost use Rattle.doubles.specs.Refusal.{paper};
ghost use Rattle.axis.specs.Calls.{probe_of, draw_of};

use doubles::Refusal;

// A drawn coordinate and its weight.
#[derive(Clone, Copy)]
pub struct Point {
    pub at: f64,
    pub weight: f64,
}

// A coordinate, its weight, and its bin.
#[derive(Clone, Copy)]
pub struct Spot {
    pub point: Point,
    pub bin: usize,
}

// The weight of the bin of x. Refused: 12; 5 where x is no number in [0, 1].
pub fn probe(edges: &[f64], x: f64) -> Result<f64, Refusal>
    ensures { paper result ≡ probe_of edges.now x }
{
    if !scans::is_well_formed(edges) {
        return Err(Refusal::State);
    }
    if !scans::in_unit(x) {
        return Err(Refusal::Coordinate);
    }
    Ok(edges::weight_of(edges, edges::bin_of(edges, x)))
}

// The point that the unit draw r gives. Refused: 12.
pub fn draw(edges: &[f64], r: f64) -> Result<Point, Refusal>
    ensures { paper result ≡ draw_of edges.now r }
{
    if !scans::is_well_formed(edges) {
        return Err(Refusal::State);
    }
    Ok(edges::point_of(edges, r))
}
