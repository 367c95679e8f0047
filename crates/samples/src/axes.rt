// The axes of a grid: each works on its own stretch of the lent edges, wherever that begins.
ghost use Rattle.std.specs.Prelude.{◌≡◌, true, ◌≤◌, length};
ghost use Rattle.doubles.specs.Numbers.{one64};
ghost use Rattle.axis.specs.Edges.{well_formed, in_unit};
ghost use Rattle.model.specs.Draw.{place_on, walked, placed_from};
ghost use Rattle.lent.specs.Drawn.{axes_at, Places, under_floor, Stands};
ghost use Rattle.lent.specs.Selected.{Selects};

use axis::{Point, Spot};
use ground::floors;
use lent::{AxesAt, Walked};
use stream::MonteCarloRng;

// Whether sampling is even, and the stream that it starts from.
#[derive(Clone, Copy)]
struct Choice {
    evenly: bool,
    stream: MonteCarloRng,
}

// The bin of those held that a word's draw falls to, near enough for a guess.
fn guess_of(word: u64, held: usize) -> usize
    requires { held ≤ 1024 }
{
    (((word >> 32) as usize) * held) >> 32
}

// A coordinate, its weight and its bin from a unit draw: the draw itself where sampling is even, else the axis's own, near any guess.
fn place_on(edges: &[f64], unit: f64, evenly: bool, guess: usize) -> Spot
    requires { (well_formed edges.now ≡ true) × (in_unit unit ≡ true) }
    ensures { result.point ≡ place_on evenly edges.now unit }
{
    if evenly {
        let bin = axis::edges::bin_of(edges, unit);
        let point = Point {
            at: unit,
            weight: axis::edges::weight_of(edges, bin),
        };
        return Spot { point, bin };
    }
    axis::edges::spot_near(edges, unit, guess)
}

// Draws a coordinate on each axis. The bins that they were drawn from are guesses for the search where a sample is judged, which takes any number.
fn walk_axes(
    reals: &[f64],
    counts: &[u64],
    g: AxesAt,
    evenly: bool,
    start: MonteCarloRng,
    coordinates: &mut [f64; 8],
    spots: &mut [usize; 8],
) -> Walked
    requires { Stands reals.now counts.now g × (length coordinates.old ≡ 8) }
    ensures { Places g.axes (walked evenly (axes_at reals.now counts.now g) one64 start) result coordinates.old coordinates.new × (length spots.new ≡ length spots.old) }
{
    let mut weight = 1.0;
    let mut stream = start;
    let mut at = g.reals;
    let mut place = g.counts;
    for done in 0..g.axes {
        let held = counts[place] as usize;
        let word = stream.next_u64();
        let unit = stream::unit_of(word.value);
        let guess = guess_of(word.value, held);
        let end = at + held + 1;
        let edges = &reals[at..end];
        let spot = place_on(edges, unit, evenly, guess);
        coordinates[done] = spot.point.at;
        weight = weight * spot.point.weight;
        stream = word.stream;
        at = at + (6 * g.most + 1);
        place = place + (3 * g.most + 2);
        spots[done] = spot.bin;
    }
    Walked { weight, stream }
}

// Which sampling a floor selects, and the stream for it: 0 and 1 draw no choice word; between, a draw below the floor is for even sampling.
fn choose(floor: f64, start: MonteCarloRng) -> Choice
    ensures { Selects floor start result.evenly result.stream }
{
    if floor == 0.0 {
        return Choice {
            evenly: false,
            stream: start,
        };
    }
    if floor == 1.0 {
        return Choice {
            evenly: true,
            stream: start,
        };
    }
    let unit = start.unit();
    let stream = unit.stream;
    Choice {
        evenly: unit.value < floor,
        stream,
    }
}

// A draw from an axes grid: the walk that its floor selects, its weight under the floor.
pub fn draw_axes(
    reals: &[f64],
    counts: &[u64],
    g: AxesAt,
    start: MonteCarloRng,
    coordinates: &mut [f64; 8],
    spots: &mut [usize; 8],
) -> Walked
    requires { Stands reals.now counts.now g × (length coordinates.old ≡ 8) }
    ensures { Places g.axes (under_floor g.floor (placed_from g.floor (axes_at reals.now counts.now g) start)) result coordinates.old coordinates.new × (length spots.new ≡ length spots.old) }
{
    let choice = choose(g.floor, start);
    let stream = choice.stream;
    let mut walked = walk_axes(reals, counts, g, choice.evenly, stream, coordinates, spots);
    walked.weight = floors::floored(g.floor, walked.weight);
    walked
}
