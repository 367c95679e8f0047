// Whether the axes of a grid are well formed: scans over their columns. From axis to axis two places go on beside the count, here and in the
// crates above, as `over_axes` and its like define it.
ghost use Rattle.std.specs.Prelude.{◌≡◌, ◌∷◌, ◌+◌, ◌*◌, ◌^◌, ◌≤◌, ◌<◌, leb, length, get_or};
ghost use Rattle.doubles.specs.Total.{all_finite};
ghost use Rattle.axis.specs.Scans.{all_bounded};
ghost use Rattle.model.specs.Sound.{listed};
ghost use Rattle.lent.specs.Layout.{stretch};
ghost use Rattle.lent.specs.Judged.{reals_fit, counts_fit, axis_fits, axes_fit, AllUpto, all_upto, axes_fit_of};

use axis::scans::{are_bounded, are_finite, is_well_formed};
use lent::{AxesAt, room};

// Whether n is the plan's bin number or a value of its bin evolution; with no jump, as axis's scans.
fn is_listed(n: u64, bins: u64, values: &[u64]) -> bool
    ensures { result ≡ listed n (bins ∷ values.now) }
{
    let mut found = n == bins;
    for value in values {
        found = found | (n == *value);
    }
    found
}

// The n entries from `at` on.
fn part<T>(entries: &[T], at: usize, n: usize) -> &[T]
    requires { at + n ≤ length entries.now }
    ensures { result.now ≡ stretch at n entries.now }
{
    &entries[at..at + n]
}

// Whether the count at i is within its bound.
pub(crate) fn is_bounded_at(counts: &[u64], i: usize) -> bool
    requires { i < length counts.now }
    ensures { result ≡ leb (get_or counts.now i 0) (2 ^ 53) }
{
    counts[i] <= 9007199254740992
}

// Whether the doubles of an axis that holds n bins are well formed.
fn reals_fit(reals: &[f64], most: usize, r: usize, n: usize) -> bool
    requires { (n ≤ most) × (most ≤ 1024) × (r + (6 * most + 1) ≤ length reals.now) }
    ensures { result ≡ reals_fit most n r reals.now }
{
    let rising = is_well_formed(part(reals, r, n + 1));
    let gathered = are_finite(part(reals, r + (most + 1), n));
    let summed = are_finite(part(reals, r + (2 * most + 1), n));
    let squared = are_finite(part(reals, r + (3 * most + 1), n));
    (rising & gathered) & (summed & squared)
}

// Whether the counts of an axis that holds n bins are within their bound.
fn counts_fit(counts: &[u64], most: usize, c: usize, n: usize) -> bool
    requires { (n ≤ most) × (most ≤ 1024) × (c + (3 * most + 2) ≤ length counts.now) }
    ensures { result ≡ counts_fit most n c counts.now }
{
    let waits = are_bounded(part(counts, c + 2, n));
    let nils = are_bounded(part(counts, c + (most + 2), n));
    let counted = are_bounded(part(counts, c + (2 * most + 2), n));
    (waits & nils) & (counted & is_bounded_at(counts, c + 1))
}

// Whether the axis at r and c holds one of its plan's bin numbers, and is well formed.
fn axis_fits(
    reals: &[f64],
    counts: &[u64],
    most: usize,
    r: usize,
    c: usize,
    bins: u64,
    values: &[u64],
) -> bool
    requires { (most ≤ 1024) × AllUpto most (bins ∷ values.now) × (r + (6 * most + 1) ≤ length reals.now) × (c + (3 * most + 2) ≤ length counts.now) }
    ensures { result ≡ axis_fits (bins ∷ values.now) most reals.now counts.now r c }
{
    let held = counts[c];
    if !is_listed(held, bins, values) {
        return false;
    }
    let n = held as usize;
    let doubles = reals_fit(reals, most, r, n);
    let whole = counts_fit(counts, most, c, n);
    doubles & whole
}

// Whether every axis is well formed, of axes that there is room for.
pub(crate) fn axes_fit_there(
    reals: &[f64],
    counts: &[u64],
    g: AxesAt,
    bins: u64,
    values: &[u64],
) -> bool
    requires { (g.most ≤ 1024) × AllUpto g.most (bins ∷ values.now) × (g.reals + g.axes * (6 * g.most + 1) ≤ length reals.now) × (g.counts + g.axes * (3 * g.most + 2) ≤ length counts.now) }
    ensures { result ≡ axes_fit (bins ∷ values.now) g.most reals.now counts.now g.axes g.reals g.counts }
{
    let mut ok = true;
    let mut at = g.reals;
    let mut place = g.counts;
    for _ in 0..g.axes {
        ok = ok & axis_fits(reals, counts, g.most, at, place, bins, values);
        at = at + (6 * g.most + 1);
        place = place + (3 * g.most + 2);
    }
    ok
}

// Whether the plan's bin number and the values of its bin evolution are from 1 to `most`.
fn are_upto(most: usize, bins: u64, values: &[u64]) -> bool
    ensures { result ≡ all_upto most (bins ∷ values.now) }
{
    let top = most as u64;
    let mut ok = (1 <= bins) & (bins <= top);
    for value in values {
        ok = ok & ((1 <= *value) & (*value <= top));
    }
    ok
}

// Whether there is room for the axes and for each number of bins, and every axis is well formed.
pub fn axes_fit(reals: &[f64], counts: &[u64], g: AxesAt, bins: u64, values: &[u64]) -> bool
    ensures { result ≡ axes_fit_of (bins ∷ values.now) g.most reals.now counts.now g.axes g.reals g.counts }
{
    let room = room::has_axes(reals.len(), counts.len(), g.most, g.axes, g.reals, g.counts);
    if !(room & are_upto(g.most, bins, values)) {
        return false;
    }
    axes_fit_there(reals, counts, g, bins, values)
}
