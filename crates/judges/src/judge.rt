// Whether a grid in lent memory is well formed (12): its run's kind says which test it is, and its children are judged with it.
ghost use Rattle.std.specs.Prelude.{◌≡◌, ◌+◌, ◌-◌, ◌*◌, ◌≤◌, ◌<◌, length, get_or};
ghost use Rattle.std.specs.Float.{nan};
ghost use Rattle.doubles.specs.Finite.{finite_of};
ghost use Rattle.accumulator.specs.Record.{well_formed};
ghost use Rattle.model.specs.Grid.{axes, bins};
ghost use Rattle.model.specs.Sound.{sound};
ghost use Rattle.lent.specs.Memory.{record_at};
ghost use Rattle.lent.specs.Lent.{LaidAt, BinsLaidAt, AxesLaidAt, word_at, grid_in, hung_at, bins_at, head_in, bin_of, axes_in};
ghost use Rattle.lent.specs.Judged.{sound_bin};

use crate::judging;
use crate::judging::is_bounded_at;
use lent::{Lent, layout};

// Whether the double at i is finite.
fn is_finite_at(reals: &[f64], i: usize) -> bool
    requires { i < length reals.now }
    ensures { result ≡ finite_of (get_or reals.now i nan) }
{
    plain::finite(reals[i])
}

// Whether the record at r and c is well formed: finite kept sums, counts within their bound.
fn is_sound(reals: &[f64], counts: &[u64], r: usize, c: usize) -> bool
    requires { (r + 14 ≤ length reals.now) × (c + 7 ≤ length counts.now) }
    ensures { result ≡ well_formed (record_at reals.now counts.now r c) }
{
    let sums = (is_finite_at(reals, r) & is_finite_at(reals, r + 1)) & is_finite_at(reals, r + 2);
    let waiting = is_bounded_at(counts, c) & is_bounded_at(counts, c + 1);
    let processed = (waiting & is_bounded_at(counts, c + 2)) & is_bounded_at(counts, c + 3);
    (sums & is_finite_at(reals, r + 3)) & (processed & is_bounded_at(counts, c + 6))
}

// An axes grid: its own accumulator and its axes.
fn axes_grid_fits(m: Lent<'_>, w: usize) -> bool
    requires { AxesLaidAt m w }
    ensures { result ≡ sound (axes (axes_in m.entry w)) }
{
    let g = layout::axes_place(m.table, w);
    let first = w + 11;
    let last = first + m.table[w + 8] as usize;
    let fit = judging::axes_fit_there(m.reals, m.counts, g, m.table[w + 3], &m.table[first..last]);
    let own = is_sound(
        m.reals,
        m.counts,
        m.table[w + 9] as usize,
        m.table[w + 10] as usize,
    );
    fit & own
}

// A bin i of the bins grid at w, and what hangs there.
#[cycle(bin_fits_bins_fit_grid_fits)]
fn bin_fits(m: Lent<'_>, level: usize, w: usize, i: usize) -> bool
    requires { BinsLaidAt m level w × (i < word_at m (w + 2)) }
    ensures { result ≡ sound_bin (bin_of m.entry w i)
        (hung_at m.entry level (word_at m.entry (w + 7 + i))) }
{
    let r = m.table[w + 5] as usize + 14;
    let c = m.table[w + 6] as usize + 7;
    let n = m.table[w + 2] as usize;
    let own = is_sound(m.reals, m.counts, r + n + 14 * i, c + 7 * i);
    let fits = recut::is_chance(m.reals[r + i]) & own;
    let link = m.table[w + 7 + i] as usize;
    if link == 0 {
        return fits;
    }
    let below = grid_fits(m, level, link);
    fits & below
}

// A bins grid: its own accumulator and its bins.
#[cycle(bin_fits_bins_fit_grid_fits)]
fn bins_fit(m: Lent<'_>, level: usize, w: usize) -> bool
    requires { BinsLaidAt m level w }
    ensures { result ≡ sound (bins (head_in m.entry w)
        (bins_at m.entry level w)) }
{
    let n = m.table[w + 2] as usize;
    let mut ok = is_sound(
        m.reals,
        m.counts,
        m.table[w + 5] as usize,
        m.table[w + 6] as usize,
    );
    for i in 0..n {
        let fits = bin_fits(m, level, w, i);
        ok = ok & fits;
    }
    ok
}

// Whether the grid whose run begins at word w is well formed, with all below it.
#[cycle(bin_fits_bins_fit_grid_fits)]
pub fn grid_fits(m: Lent<'_>, level: usize, w: usize) -> bool
    requires { LaidAt m level w }
    ensures { result ≡ sound (grid_in m.entry level w) }
{
    if m.table[w] == 1 {
        return axes_grid_fits(m, w);
    }
    bins_fit(m, level - 1, w)
}
