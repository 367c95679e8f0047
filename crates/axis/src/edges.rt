// The edges of an axis, with nothing judged: each function answers on any list.
ghost use Rattle.std.specs.Prelude.{◌≡◌, cond, length, get_or};
ghost use Rattle.std.specs.Float.{nan};
ghost use Rattle.axis.specs.Edges.{bins_of, width_of, weight_of, even_from};
ghost use Rattle.axis.specs.Search.{search_of};
ghost use Rattle.axis.specs.Calls.{point_of, spot_of};

use crate::{Point, Spot};

// `half` where the test passed, else 0.
fn keep(test: bool, half: usize) -> usize
    ensures { result ≡ cond test half 0 }
{
    if test { half } else { 0 }
}

// The bin of x, by halves: a `while`, since what is left is no range and no slice that an iterator walks, and `partition_point` promises
// nothing of edges that do not rise.
pub fn bin_of(edges: &[f64], x: f64) -> usize
    ensures { result ≡ search_of edges.now x }
{
    if edges.len() < 2 {
        return 0;
    }
    let mut base = 0;
    let mut size = edges.len() - 1;
    while 1 < size {
        let half = size / 2;
        base = base + keep(edges[base + half] < x, half);
        size = size - half;
    }
    base
}

// How many bins the edges bound.
fn bins(edges: &[f64]) -> usize
    ensures { result ≡ bins_of edges.now }
{
    edges.len().saturating_sub(1)
}

// The edge i, and NaN past the last.
fn edge(edges: &[f64], i: usize) -> f64
    ensures { result ≡ get_or edges.now i nan }
{
    match edges.get(i) {
        Some(edge) => *edge,
        None => f64::NAN,
    }
}

// The width of bin i, and NaN past the last.
fn width(edges: &[f64], i: usize) -> f64
    ensures { result ≡ width_of edges.now i }
{
    if i < edges.len() {
        return edge(edges, i + 1) - edges[i];
    }
    f64::NAN
}

// The weight of bin i: the number of bins times its width.
pub fn weight_of(edges: &[f64], i: usize) -> f64
    ensures { result ≡ weight_of edges.now i }
{
    plain::count(bins(edges) as u64) * width(edges, i)
}

// The point that the unit draw r gives, with its weight and the bin that it falls to.
pub fn spot_of(edges: &[f64], r: f64) -> Spot
    ensures { result ≡ spot_of edges.now r }
{
    let n = plain::count(bins(edges) as u64);
    let scaled = n * r;
    let whole = plain::whole(scaled);
    let bin = whole as usize;
    let step = width(edges, bin);
    let point = Point {
        at: edge(edges, bin) + (scaled - plain::count(whole)) * step,
        weight: n * step,
    };
    Spot { point, bin }
}

// The same from a guess of the bin, which may be any number: one that the draw lies in is taken, else the bin is worked out. Without edges
// there are so many bins that no guess is taken.
pub fn spot_near(edges: &[f64], r: f64, guess: usize) -> Spot
    ensures { result ≡ spot_of edges.now r }
{
    let len = edges.len();
    let last = len.wrapping_sub(1);
    if (guess < last) & (last <= 1024) {
        let n = last as f64;
        let low = guess as f64;
        let high = low + 1.0;
        let scaled = n * r;
        if (low <= scaled) & (scaled < high) {
            let edge = edges[guess];
            let step = edges[guess + 1] - edge;
            let point = Point {
                at: edge + (scaled - low) * step,
                weight: n * step,
            };
            return Spot { point, bin: guess };
        }
    }
    spot_of(edges, r)
}

// The point alone.
pub fn point_of(edges: &[f64], r: f64) -> Point
    ensures { result ≡ point_of edges.now r }
{
    let spot = spot_of(edges, r);
    spot.point
}

// Lays the edges of even bins: i / n, for i from 0 to n, where the room has n + 1 places.
pub fn lay_even(room: &mut [f64])
    ensures { room.new ≡ even_from (length room.old) 0 (bins_of room.old) }
{
    let n = plain::count(bins(room) as u64);
    for (i, edge) in room.iter_mut().enumerate() {
        *edge = plain::count(i as u64) / n;
    }
}
