// Merging the axes of a grid with those of another in another memory: whether the two fit together, and the merge itself.
//
// The loops over axes stay `while`: the axes left are a field of the struct that goes on, and what holds is said of it. A range beside it would
// count them a second time, for nothing where no index is needed.
ghost use Rattle.std.specs.Prelude.{◌≡◌, true, ◌+◌, ◌≤◌, length, get_or};
ghost use Rattle.doubles.specs.Total.{all_finite};
ghost use Rattle.axis.specs.Scans.{all_bounded};
ghost use Rattle.recut.specs.Gather.{gathered_of, joined_counts};
ghost use Rattle.model.specs.Sound.{kept_axis, kept_axis_list};
ghost use Rattle.model.specs.Merge.{same_lengths, equal_all, equal_edges, merge_axis, merge_all};
ghost use Rattle.lent.specs.Layout.{stretch, axis_reals, axis_counts, axis_at};
ghost use Rattle.lent.specs.Memory.{memory};
ghost use Rattle.lent.specs.Laid.{Roomy};
ghost use Rattle.lent.specs.Merged.{merged_reals, merged_counts, merge_at, merged_memory, Spaced};
ghost use Rattle.lent.specs.Drawn.{axes_at, Stands};

use crate::joining::{join, lower, sum};
use crate::onward;
use lent::AxesAt;
use recut::{higher_of, joined_count};

// Whether both have as many axes, and each axis as many bins now held as the other's.
pub fn same_lengths(
    reals: &[f64],
    counts: &[u64],
    g: AxesAt,
    theirs: &[f64],
    tallies: &[u64],
    o: AxesAt,
) -> bool
    requires { Stands reals.now counts.now g × Stands theirs.now tallies.now o }
    ensures { result ≡ same_lengths (axes_at reals.now counts.now g) (axes_at theirs.now tallies.now o) }
{
    if g.axes != o.axes {
        return false;
    }
    let mut same = true;
    let mut left = g;
    let mut right = o;
    while 0 < left.axes {
        let place = left.counts;
        let right_place = right.counts;
        same = same & (counts[place] == tallies[right_place]);
        left = onward::after_first(left);
        right = onward::after_first(right);
    }
    same
}

// Whether n numbers from a place on equal the other's; all are looked at, with no jump, as in axis's scans.
fn are_equal(reals: &[f64], start: usize, theirs: &[f64], from: usize, n: usize) -> bool
    requires { (start + n ≤ length reals.now) × (from + n ≤ length theirs.now) }
    ensures { result ≡ equal_all (stretch start n reals.now) (stretch from n theirs.now) }
{
    let mut ok = true;
    for k in 0..n {
        ok = ok & (reals[start + k] == theirs[from + k]);
    }
    ok
}

// Whether n sums with the other's are finite.
fn are_finite_with(reals: &[f64], start: usize, theirs: &[f64], from: usize, n: usize) -> bool
    requires { (start + n ≤ length reals.now) × (from + n ≤ length theirs.now) }
    ensures { result ≡ all_finite (gathered_of (stretch start n reals.now) (stretch from n theirs.now)) }
{
    let mut ok = true;
    for k in 0..n {
        ok = ok & plain::finite(reals[start + k] + theirs[from + k]);
    }
    ok
}

// Whether n counts with the other's are at most 2^53, where each of them is.
// No twin of the test before: it adds only what is within its bound, which a test of any entries could not ask.
fn are_bounded_with(counts: &[u64], start: usize, theirs: &[u64], from: usize, n: usize) -> bool
    requires { (start + n ≤ length counts.now) × (from + n ≤ length theirs.now)
        × (all_bounded (stretch start n counts.now) ≡ true) × (all_bounded (stretch from n theirs.now) ≡ true) }
    ensures { result ≡ all_bounded (joined_counts (stretch start n counts.now) (stretch from n theirs.now)) }
{
    let mut ok = true;
    for k in 0..n {
        ok = ok & (counts[start + k] + theirs[from + k] <= 9007199254740992);
    }
    ok
}

// Whether all edges equal the other's, where lengths are the same.
pub fn equal_edges(
    reals: &[f64],
    counts: &[u64],
    g: AxesAt,
    theirs: &[f64],
    tallies: &[u64],
    o: AxesAt,
) -> bool
    requires { Stands reals.now counts.now g × Stands theirs.now tallies.now o
        × (same_lengths (axes_at reals.now counts.now g) (axes_at theirs.now tallies.now o) ≡ true) }
    ensures { result ≡ equal_edges (axes_at reals.now counts.now g) (axes_at theirs.now tallies.now o) }
{
    let mut ok = true;
    let mut left = g;
    let mut right = o;
    while 0 < left.axes {
        let place = left.counts;
        let held = counts[place] as usize;
        ok = ok & are_equal(reals, left.reals, theirs, right.reals, held + 1);
        left = onward::after_first(left);
        right = onward::after_first(right);
    }
    ok
}

// Whether the first axis may be kept with the other's waiting samples. Only these four columns change by more than an extreme.
fn first_fits(
    reals: &[f64],
    counts: &[u64],
    g: AxesAt,
    theirs: &[f64],
    tallies: &[u64],
    o: AxesAt,
) -> bool
    requires { Roomy g.most (get_or counts.now g.counts 0) g.reals g.counts reals.now counts.now
        × Roomy o.most (get_or counts.now g.counts 0) o.reals o.counts theirs.now tallies.now
        × (get_or counts.now g.counts 0 ≡ get_or tallies.now o.counts 0)
        × (kept_axis (axis_at g.most reals.now counts.now g.reals g.counts) ≡ true)
        × (kept_axis (axis_at o.most theirs.now tallies.now o.reals o.counts) ≡ true) }
    ensures { result ≡ kept_axis (merge_axis (axis_at g.most reals.now counts.now g.reals g.counts)
        (axis_at o.most theirs.now tallies.now o.reals o.counts)) }
{
    let m = g.most;
    let k = o.most;
    let r = g.reals;
    let q = o.reals;
    let c = g.counts;
    let d = o.counts;
    let held = counts[c] as usize;
    let sums = are_finite_with(reals, r + (2 * m + 1), theirs, q + (2 * k + 1), held);
    let squares = are_finite_with(reals, r + (3 * m + 1), theirs, q + (3 * k + 1), held);
    let waiting = are_bounded_with(counts, c + 2, tallies, d + 2, held);
    let zeros = are_bounded_with(counts, c + (m + 2), tallies, d + (k + 2), held);
    (sums & squares) & (waiting & zeros)
}

// Whether all axes may be kept with the other's waiting samples, where both are kept now and lengths are the same.
pub fn merged_fit(
    reals: &[f64],
    counts: &[u64],
    g: AxesAt,
    theirs: &[f64],
    tallies: &[u64],
    o: AxesAt,
) -> bool
    requires { Stands reals.now counts.now g × Stands theirs.now tallies.now o
        × (same_lengths (axes_at reals.now counts.now g) (axes_at theirs.now tallies.now o) ≡ true)
        × (kept_axis_list (axes_at reals.now counts.now g) ≡ true) × (kept_axis_list (axes_at theirs.now tallies.now o) ≡ true) }
    ensures { result ≡ kept_axis_list (merge_all (axes_at reals.now counts.now g) (axes_at theirs.now tallies.now o)) }
{
    let mut ok = true;
    let mut left = g;
    let mut right = o;
    while 0 < left.axes {
        ok = ok & first_fits(reals, counts, left, theirs, tallies, right);
        left = onward::after_first(left);
        right = onward::after_first(right);
    }
    ok
}

// The n bins of the first axis take the other's: sums and squares add, extremes go to the further one.
fn merge_reals(reals: &mut [f64], g: AxesAt, theirs: &[f64], o: AxesAt, n: usize)
    requires { (n ≤ g.most) × (g.most ≤ 1024) × (g.reals + axis_reals g.most ≤ length reals.old)
        × (n ≤ o.most) × (o.most ≤ 1024) × (o.reals + axis_reals o.most ≤ length theirs.now) }
    ensures { reals.new ≡ merged_reals g.most o.most n g.reals o.reals theirs.now reals.old }
{
    let m = g.most;
    let k = o.most;
    let r = g.reals;
    let q = o.reals;
    join(reals, r + (2 * m + 1), theirs, q + (2 * k + 1), n, sum);
    join(reals, r + (3 * m + 1), theirs, q + (3 * k + 1), n, sum);
    join(
        reals,
        r + (4 * m + 1),
        theirs,
        q + (4 * k + 1),
        n,
        higher_of,
    );
    join(reals, r + (5 * m + 1), theirs, q + (5 * k + 1), n, lower);
}

// The n bins of the first axis take the other's waiting samples and zeros; counters and re-cuts stay.
fn merge_counts(counts: &mut [u64], g: AxesAt, tallies: &[u64], o: AxesAt, n: usize)
    requires { (n ≤ g.most) × (g.most ≤ 1024) × (g.counts + axis_counts g.most ≤ length counts.old)
        × (n ≤ o.most) × (o.most ≤ 1024) × (o.counts + axis_counts o.most ≤ length tallies.now) }
    ensures { counts.new ≡ merged_counts g.most o.most n g.counts o.counts tallies.now counts.old }
{
    let m = g.most;
    let k = o.most;
    let c = g.counts;
    let d = o.counts;
    join(counts, c + 2, tallies, d + 2, n, joined_count);
    join(counts, c + (m + 2), tallies, d + (k + 2), n, joined_count);
}

// The first axis takes the other's waiting samples. Bins held are within both rooms on a well-formed state; else it stays.
fn merge_axis(
    reals: &mut [f64],
    counts: &mut [u64],
    g: AxesAt,
    theirs: &[f64],
    tallies: &[u64],
    o: AxesAt,
)
    requires { (g.most ≤ 1024) × (g.reals + axis_reals g.most ≤ length reals.old) × (g.counts + axis_counts g.most ≤ length counts.old)
        × (o.most ≤ 1024) × (o.reals + axis_reals o.most ≤ length theirs.now) × (o.counts + axis_counts o.most ≤ length tallies.now) }
    ensures { memory reals.new counts.new ≡
        merge_at g.most (memory theirs.now tallies.now) g.reals g.counts o (memory reals.old counts.old) }
{
    let place = g.counts;
    let held = counts[place] as usize;
    if g.most < held {
        return;
    }
    if o.most < held {
        return;
    }
    merge_reals(reals, g, theirs, o, held);
    merge_counts(counts, g, tallies, o, held);
}

// Every axis takes the waiting samples of the other's.
pub fn merge_axes(
    reals: &mut [f64],
    counts: &mut [u64],
    g: AxesAt,
    theirs: &[f64],
    tallies: &[u64],
    o: AxesAt,
)
    requires { Spaced g (length reals.old) (length counts.old) × Spaced o (length theirs.now) (length tallies.now) × (g.axes ≤ o.axes) }
    ensures { memory reals.new counts.new ≡
        merged_memory g o (memory theirs.now tallies.now) (memory reals.old counts.old) }
{
    let mut left = g;
    let mut right = o;
    while 0 < left.axes {
        merge_axis(reals, counts, left, theirs, tallies, right);
        left = onward::after_first(left);
        right = onward::after_first(right);
    }
}
