// Training axes: whether a sample may join its bins is judged first, on all of them; only then is anything written. An axis's place is most,
// r and c, as in ground's `accounts`.
ghost use Rattle.std.specs.Prelude.{◌≡◌, Bool, true, ◌&&◌, List, [], ◌∷◌, Float, ◌+◌, ◌*◌, ◌^◌, ◌≤◌, ◌<◌, length, get_or};
ghost use Rattle.std.specs.Float.{nan};
ghost use Rattle.axis.specs.Edges.{well_formed, in_unit, bin_of};
ghost use Rattle.lent.specs.Sampled.{entries};
ghost use Rattle.doubles.specs.Finite.{finite_of};
ghost use Rattle.lent.specs.Drawn.{axes_at};
ghost use Rattle.lent.specs.Memory.{memory, Asked};
ghost use Rattle.lent.specs.Trained.{bins_on, trained_at, Cell, cell_fits, cells_fit, trained_over, CellsOf};
ghost use Rattle.lent.specs.Found.{Begins};
ghost use Rattle.samples.specs.Tried.{all_fit, Rests};

use crate::reading::{count_at, real_at};
use accumulator::zero_count;
use lent::AxesAt;

// Whether the test holds of each of the first n entries.
pub fn are_all<const N: usize, F: Fn(f64) -> bool>(xs: &[f64; N], n: usize, test: F) -> bool
    requires { (n ≤ N) × F.IsAlwaysCallable test }
    ensures { (t : Float → Bool) → ((x : Float) (b : Bool) → F.post test x b → b ≡ t x) → (all : List Float → Bool) → all [] ≡ true
        → ((x : Float) (rest : List Float) → all (x ∷ rest) ≡ (t x && all rest)) → result ≡ all (entries nan xs.now 0 n) }
{
    let mut ok = true;
    for i in 0..n {
        ok = ok & test(xs[i]);
    }
    ok
}

// The bin of x: the guess where x lies there, else the one that is searched for.
fn bin_near(edges: &[f64], x: f64, guess: usize) -> usize
    requires { (well_formed edges.now ≡ true) × (in_unit x ≡ true) }
    ensures { result ≡ bin_of edges.now x }
{
    let last = edges.len() - 1;
    if guess < last {
        if (edges[guess] < x) & (x <= edges[guess + 1]) {
            return guess;
        }
    }
    axis::edges::bin_of(edges, x)
}

// Whether two numbers are finite: each less itself is 0 where it is, else NaN. Accumulator's test of four sums is another, within its own.
pub fn are_sums_finite(sum: f64, squares: f64) -> bool
    ensures { result ≡ (finite_of sum && finite_of squares) }
{
    (sum - sum) + (squares - squares) == 0.0
}

// What is kept of the bins that were tried: `rest` is 0 while all their sums are finite, else NaN, which no sum loses; `top` is the highest of
// their counts. So what was found so far is not tested at each bin.
#[derive(Clone, Copy)]
struct Tried {
    rest: f64,
    top: u64,
}

// Whether all that were tried fit.
fn all_fit(tried: Tried) -> bool
    ensures { result ≡ all_fit tried }
{
    (tried.rest == 0.0) & (tried.top <= 9007199254740992)
}

// One bin more is tried: its sums and counts once v has joined it.
fn cell_tried(
    before: Tried,
    reals: &[f64],
    counts: &[u64],
    most: usize,
    r: usize,
    c: usize,
    bin: usize,
    v: f64,
) -> Tried
    requires { (most ≤ 1024) × Cell most r c bin (memory reals.now counts.now) × Rests before }
    ensures { (all_fit result ≡ (all_fit before && cell_fits most v r c bin (memory reals.now counts.now))) × Rests result }
{
    let sum = real_at(reals, r + (2 * most + 1) + bin) + v;
    let squares = real_at(reals, r + (3 * most + 1) + bin) + v * v;
    let waiting = count_at(counts, c + 2 + bin) + 1;
    let zeros = count_at(counts, c + (most + 2) + bin) + zero_count(v);
    Tried {
        rest: before.rest + ((sum - sum) + (squares - squares)),
        top: before.top.max(waiting).max(zeros),
    }
}

// Whether v may join each coordinate's bin on its axis. For each bin there is a guess in spots, which may be any number; the bin is written
// over it.
pub fn axes_fit(
    reals: &[f64],
    counts: &[u64],
    g: AxesAt,
    xs: &[f64; 8],
    v: f64,
    spots: &mut [usize; 8],
) -> bool
    requires { CellsOf g (entries nan xs.now 0 g.axes) (memory reals.now counts.now) × (length spots.old ≡ 8) }
    ensures { (result ≡ cells_fit g.most v (bins_on (axes_at reals.now counts.now g) (entries nan xs.now 0 g.axes)) g.reals g.counts (memory reals.now counts.now))
        × Begins spots.new (bins_on (axes_at reals.now counts.now g) (entries nan xs.now 0 g.axes)) }
{
    let mut tried = Tried { rest: 0.0, top: 0 };
    let mut at = g.reals;
    let mut place = g.counts;
    for done in 0..g.axes {
        let held = counts[place] as usize;
        let end = at + held + 1;
        let bin = bin_near(&reals[at..end], xs[done], spots[done]);
        spots[done] = bin;
        tried = cell_tried(tried, reals, counts, g.most, at, place, bin, v);
        at = at + (6 * g.most + 1);
        place = place + (3 * g.most + 2);
    }
    all_fit(tried)
}

// v joins the sums of a bin of the axis at r, and is both its extremes.
fn train_reals(reals: &mut [f64], most: usize, r: usize, bin: usize, v: f64)
    requires { (most ≤ 1024) × (bin < most) × (r + (6 * most + 1) ≤ length reals.old) }
    ensures { reals.new ≡ (trained_at most v r 0 bin (memory reals.old [])).reals }
{
    let sum_at = r + (2 * most + 1) + bin;
    let squares_at = r + (3 * most + 1) + bin;
    let sum = reals[sum_at] + v;
    let squares = reals[squares_at] + v * v;
    reals[sum_at] = sum;
    reals[squares_at] = squares;
    reals[r + (4 * most + 1) + bin] = v;
    reals[r + (5 * most + 1) + bin] = v;
}

// v joins the counts of a bin of the axis at c.
fn train_counts(counts: &mut [u64], most: usize, c: usize, bin: usize, v: f64)
    requires { (most ≤ 1024) × (bin < most) × (c + (3 * most + 2) ≤ length counts.old)
        × (get_or counts.old (c + 2 + bin) 0 ≤ 2 ^ 53) × (get_or counts.old (c + (most + 2) + bin) 0 ≤ 2 ^ 53) }
    ensures { counts.new ≡ (trained_at most v 0 c bin (memory [] counts.old)).counts }
{
    let waiting_at = c + 2 + bin;
    let zeros_at = c + (most + 2) + bin;
    let waiting = counts[waiting_at] + 1;
    let zeros = counts[zeros_at] + zero_count(v);
    counts[waiting_at] = waiting;
    counts[zeros_at] = zeros;
}

// v joins the given bin of each axis.
pub fn train_axes(reals: &mut [f64], counts: &mut [u64], g: AxesAt, spots: &[usize; 8], v: f64)
    requires { (g.axes ≤ 8) × (g.most ≤ 1024) × Asked (Cell g.most) g.most (entries 0 spots.now 0 g.axes) g.reals g.counts (memory reals.old counts.old) }
    ensures { memory reals.new counts.new ≡ trained_over g v (entries 0 spots.now 0 g.axes) (memory reals.old counts.old) }
{
    let mut at = g.reals;
    let mut place = g.counts;
    for done in 0..g.axes {
        let bin = spots[done];
        train_reals(reals, g.most, at, bin, v);
        train_counts(counts, g.most, place, bin, v);
        at = at + (6 * g.most + 1);
        place = place + (3 * g.most + 2);
    }
}
