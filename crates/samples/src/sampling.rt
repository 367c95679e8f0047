// Sampling: a grid's draw goes to its axes or to one of its bins, and from there to what hangs at the bin.
ghost use Rattle.std.specs.Prelude.{◌≡◌, true, ◌+◌, ◌≤◌, ◌<◌, length, get_or};
ghost use Rattle.doubles.specs.Numbers.{zero64};
ghost use Rattle.recut.specs.Chances.{all_chances};
ghost use Rattle.model.specs.Grid.{axes, bins};
ghost use Rattle.model.specs.Sound.{sound};
ghost use Rattle.model.specs.Draw.{reached, draw_axes, draw_grid, draw_child};
ghost use Rattle.lent.specs.Lent.{LaidAt, BinsLaidAt, AxesLaidAt, ChildLaidAt, grid_in, hung_at, bins_at, head_in, axes_in};
ghost use Rattle.lent.specs.Sampled.{empty, sample_of, laid_sample, WrittenOver, sound_child, TracesAxes, Traces};

use crate::axes;
use crate::reading::place_at;
use lent::{Lent, Sample, Traced};
use stream::MonteCarloRng;

// The first bin whose running sum of probabilities is at least the draw; if none, the last. The sums go up, so that the bins whose sum lies
// below the draw are counted. Up to 16 bins all are looked at: a jump at the bin that is reached is one that the processor cannot foresee, and
// costs more than the rest of the sums.
fn reach(chances: &[f64], r: f64) -> usize
    requires { (1 ≤ length chances.now) × (all_chances chances.now ≡ true) }
    ensures { (result ≡ reached r zero64 chances.now) × (result < length chances.now) }
{
    let mut sum = 0.0;
    let mut bin = 0;
    for i in 0..chances.len() - 1 {
        sum = sum + chances[i];
        bin = bin + usize::from(!(r <= sum));
        if (16 < chances.len()) & (bin <= i) {
            return bin;
        }
    }
    bin
}

// A sample of nothing, into which one is drawn.
pub fn empty_sample() -> Sample
    ensures { result ≡ laid_sample empty }
{
    Sample {
        path: [0usize; 4],
        levels: 0,
        weights: [0.0f64; 5],
        given: 0,
        coordinates: [0.0f64; 8],
        axes: 0,
    }
}

// A draw from the axes grid at word w, below `depth` bins grids.
fn draw_from_axes(
    m: Lent<'_>,
    w: usize,
    start: MonteCarloRng,
    s: &mut Sample,
    spots: &mut [usize; 8],
    depth: usize,
) -> Traced
    requires { AxesLaidAt m w × (sound (axes (axes_in m w)) ≡ true) × (depth ≤ 4) }
    ensures { TracesAxes depth (draw_axes (axes_in m.entry w) start) result
        s.old.weights s.new.weights s.old.coordinates s.new.coordinates × (length spots.new ≡ length spots.old) × (s.new.path ≡ s.old.path) }
{
    let g = place_at(m.table, w);
    let walked = axes::draw_axes(m.reals, m.counts, g, start, &mut s.coordinates, spots);
    s.weights[depth] = walked.weight;
    let stream = walked.stream;
    Traced {
        levels: depth,
        given: depth + 1,
        axes: g.axes,
        weight: walked.weight,
        stream,
    }
}

// A draw from what hangs at a link, below `depth` bins grids.
#[cycle(draw_child_draw_from_bins_draw_grid)]
fn draw_child(
    m: Lent<'_>,
    level: usize,
    link: usize,
    start: MonteCarloRng,
    s: &mut Sample,
    spots: &mut [usize; 8],
    depth: usize,
) -> Traced
    requires { ChildLaidAt m level link × (depth + level ≤ 4) × (sound_child (hung_at m level link) ≡ true) }
    ensures { Traces level depth (draw_child (hung_at m.entry level link) start) result
        s.old.path s.new.path s.old.weights s.new.weights s.old.coordinates s.new.coordinates × (length spots.new ≡ length spots.old) }
{
    if link == 0 {
        return Traced {
            levels: depth,
            given: depth,
            axes: 0,
            weight: 1.0,
            stream: start,
        };
    }
    draw_grid(m, level, link, start, s, spots, depth)
}

// A draw from the bins grid at word w, whose children have so many levels left.
#[cycle(draw_child_draw_from_bins_draw_grid)]
fn draw_from_bins(
    m: Lent<'_>,
    level: usize,
    w: usize,
    start: MonteCarloRng,
    s: &mut Sample,
    spots: &mut [usize; 8],
    depth: usize,
) -> Traced
    requires { BinsLaidAt m level w × (depth + level ≤ 3)
        × (sound (bins (head_in m w) (bins_at m level w)) ≡ true) }
    ensures { Traces (level + 1) depth (draw_grid (bins (head_in m.entry w)
        (bins_at m.entry level w)) start) result
        s.old.path s.new.path s.old.weights s.new.weights s.old.coordinates s.new.coordinates × (length spots.new ≡ length spots.old) }
{
    let unit = start.unit();
    let next = unit.stream;
    let first = m.table[w + 5] as usize + 14;
    let past = first + m.table[w + 2] as usize;
    let bin = reach(&m.reals[first..past], unit.value);
    let chance = m.reals[first + bin];
    // Divided before the recursion, so that neither waits for the other.
    let share = plain::inv(chance);
    let link = m.table[w + 7 + bin] as usize;
    s.path[depth] = bin;
    let mut traced = draw_child(m, level, link, next, s, spots, depth + 1);
    let weight = share * traced.weight;
    s.weights[depth] = weight;
    traced.weight = weight;
    traced
}

// A draw from the grid whose run begins at word w, below `depth` bins grids.
#[cycle(draw_child_draw_from_bins_draw_grid)]
pub fn draw_grid(
    m: Lent<'_>,
    level: usize,
    w: usize,
    start: MonteCarloRng,
    s: &mut Sample,
    spots: &mut [usize; 8],
    depth: usize,
) -> Traced
    requires { LaidAt m level w × (depth + level ≤ 4) × (sound (grid_in m level w) ≡ true) }
    ensures { Traces level depth (draw_grid (grid_in m.entry level w) start) result
        s.old.path s.new.path s.old.weights s.new.weights s.old.coordinates s.new.coordinates × (length spots.new ≡ length spots.old) }
{
    if m.table[w] == 1 {
        return draw_from_axes(m, w, start, s, spots, depth);
    }
    draw_from_bins(m, level - 1, w, start, s, spots, depth)
}

// A draw from the whole grid.
pub fn draw_root(
    m: Lent<'_>,
    start: MonteCarloRng,
    s: &mut Sample,
    spots: &mut [usize; 8],
) -> MonteCarloRng
    requires { LaidAt m 4 0 × (sound (grid_in m 4 0) ≡ true) }
    ensures { (result ≡ (draw_grid (grid_in m.entry 4 0) start).stream) × WrittenOver s.old s.new (draw_grid (grid_in m.entry 4 0) start).sample
        × (sample_of s.new ≡ (draw_grid (grid_in m.entry 4 0) start).sample) × (length spots.new ≡ length spots.old) }
{
    let traced = draw_grid(m, 4, 0, start, s, spots, 0);
    s.levels = traced.levels;
    s.given = traced.given;
    s.axes = traced.axes;
    traced.stream
}
