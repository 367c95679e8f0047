// The update of axes in lent memory: each axis is judged on work slices, and written only once it is known to be accepted. An axis's place
// is most, r and c, as in ground's `accounts`.
ghost use Rattle.std.specs.Prelude.{List, ◌≡◌, ◌&&◌, [], ◌+◌, ◌*◌, ◌≤◌, length, get_or};
ghost use Rattle.doubles.specs.Total.{all_finite};
ghost use Rattle.axis.specs.Scans.{all_bounded};
ghost use Rattle.recut.specs.Renew.{renew_of};
ghost use Rattle.lent.specs.Layout.{stretch};
ghost use Rattle.lent.specs.Memory.{memory};
ghost use Rattle.lent.specs.Drawn.{Stands};
ghost use Rattle.lent.specs.Laid.{Roomy};
ghost use Rattle.lent.specs.Renewed.{bins_to, Within, trained_from, kept_at, found, recut_into, recut_at, adapted_at, update_at, update_all_at};

use doubles::Refusal;
use ground::{laying, parts};
use lent::{AxesAt, Found, Rule};

// The number of bins after so many re-cuts: the list's value there, or its last; where there is none, `bins`.
fn bins_after(rule: Rule, values: &[u64], recuts: u64) -> usize
    ensures { result ≡ bins_to rule values.now recuts }
{
    let k = values.len();
    if k == 0 {
        return rule.bins;
    }
    if recuts < k as u64 {
        return values[recuts as usize] as usize;
    }
    values[k - 1] as usize
}

// A column of an axis's bins with another joined to it: where each begins, for as many bins as there is room.
fn gather<T: Copy, F: Fn(&mut [T], &[T])>(
    room: &mut [T],
    entries: &[T],
    start: usize,
    from: usize,
    join: F,
)
    requires { (start + length room.old ≤ length entries.now) × (from + length room.old ≤ length entries.now) × F.IsAlwaysCallable join }
    ensures { (g : List T → List T → List T) → ((x : _) (y : _) (u : _) (z : _) → F.post join x y u z → z.now ≡ g x.now y.now) → room.new ≡
        g (stretch start (length room.old) entries.now) (stretch from (length room.old) entries.now) }
{
    let n = room.len();
    let end = start + n;
    let last = from + n;
    room.copy_from_slice(&entries[start..end]);
    join(room, &entries[from..last]);
}

// Whether gathered importances are finite and gathered counters at most 2^53.
fn may_be_kept(importances: &[f64], counters: &[u64]) -> bool
    ensures { result ≡ (all_finite importances.now && all_bounded counters.now) }
{
    axis::scans::are_finite(importances) && axis::scans::are_bounded(counters)
}

// Keeps gathered importances and counters; nothing waits.
fn keep(
    reals: &mut [f64],
    counts: &mut [u64],
    most: usize,
    r: usize,
    c: usize,
    importances: &[f64],
    counters: &[u64],
)
    requires { Roomy most (length importances.now) r c reals.old counts.old × (length counters.now ≡ length importances.now) }
    ensures { memory reals.new counts.new ≡
        kept_at most r c importances.now counters.now (memory reals.old counts.old) }
{
    parts::set(reals, r + (most + 1), importances);
    parts::set(counts, c + (2 * most + 2), counters);
    laying::clear_waiting(reals, counts, most, r, c, importances.len());
}

// New edges for n bins from the gathered importances, and nothing trained on them: they are cut in the room, and stand in the axis
// once they are accepted.
fn recut_into(
    reals: &mut [f64],
    counts: &mut [u64],
    most: usize,
    r: usize,
    c: usize,
    n: usize,
    recuts: u64,
    rate: f64,
    importances: &mut [f64],
    counters: &[u64],
    room: &mut [f64],
) -> Found
    requires { Roomy most n r c reals.old counts.old × (length importances.old ≤ most) × (length room.old ≡ n + 1) }
    ensures { found result (memory reals.new counts.new) ≡
        recut_into most r c n recuts
        (renew_of (stretch r (length importances.old + 1) reals.old) importances.old counters.now rate (n + 1))
        (memory reals.old counts.old) }
{
    let edges = importances.len() + 1;
    let end = r + edges;
    match recut::renew(&reals[r..end], importances, counters, rate, room) {
        Err(refusal) => Found {
            eight: refusal == Refusal::Overflow,
            nine: refusal == Refusal::Edges,
        },
        Ok(()) => {
            parts::set(reals, r, room);
            laying::empty_axis(reals, counts, most, r, c, n, recuts);
            Found::NOTHING
        }
    }
}

// A re-cut to the rule's bins, cut in room of its own. Refused: 8 where the number of re-cuts would be above 2^53, and what the cut
// itself refuses.
fn recut_axis(
    reals: &mut [f64],
    counts: &mut [u64],
    most: usize,
    r: usize,
    c: usize,
    rule: Rule,
    rate: f64,
    importances: &mut [f64],
    counters: &[u64],
) -> Found
    requires { Roomy most (length importances.old) r c reals.old counts.old × (rule.bins ≤ most) }
    ensures { found result (memory reals.new counts.new) ≡
        recut_at rule [] rate most r c importances.old counters.now (memory reals.old counts.old) }
{
    let recuts = counts[c + 1];
    if 9007199254740992 <= recuts {
        return Found::EIGHT;
    }
    let n = rule.bins;
    let places = n + 1;
    let mut room = [0.0f64; 1025];
    recut_into(
        reals,
        counts,
        most,
        r,
        c,
        n,
        recuts + 1,
        rate,
        importances,
        counters,
        &mut room[0..places],
    )
}

// From the gathered importances and counters on. Refused: 8 where they may not be kept. They are kept where the least samples are
// not reached; rate 0 resets the axis on its edges; any other rate re-cuts it.
fn adapt(
    reals: &mut [f64],
    counts: &mut [u64],
    most: usize,
    r: usize,
    c: usize,
    rule: Rule,
    rate: f64,
    importances: &mut [f64],
    counters: &[u64],
) -> Found
    requires { Roomy most (length importances.old) r c reals.old counts.old × (length counters.now ≡ length importances.old) × (rule.bins ≤ most) }
    ensures { found result (memory reals.new counts.new) ≡
        adapted_at rule [] rate most r c importances.old counters.now (memory reals.old counts.old) }
{
    if !may_be_kept(importances, counters) {
        return Found::EIGHT;
    }
    if !recut::reaches(counters, rule.least) {
        keep(reals, counts, most, r, c, importances, counters);
        return Found::NOTHING;
    }
    if rate == 0.0 {
        let recuts = counts[c + 1];
        laying::empty_axis(reals, counts, most, r, c, importances.len(), recuts);
        return Found::NOTHING;
    }
    recut_axis(reals, counts, most, r, c, rule, rate, importances, counters)
}

// Where the column that is trained on begins: the sums on averages, the squares else.
#[tactic(auto, unfolding(lent::specs::Renewed::trained_from))]
fn trained_from(averages: bool, most: usize) -> usize
    requires { most ≤ 1024 }
    ensures { result ≡ trained_from averages most }
{
    if averages {
        return 2 * most + 1;
    }
    3 * most + 1
}

// The update of an axis to the rule's bins, with room for the importances and counters of just those that it holds.
fn renew_axis(
    reals: &mut [f64],
    counts: &mut [u64],
    most: usize,
    r: usize,
    c: usize,
    rule: Rule,
    rate: f64,
    importances: &mut [f64],
    counters: &mut [u64],
) -> Found
    requires { Roomy most (length importances.old) r c reals.old counts.old × (length importances.old ≡ get_or counts.old c 0)
        × (length counters.old ≡ get_or counts.old c 0) × (rule.bins ≤ most) }
    ensures { found result (memory reals.new counts.new) ≡
        update_at rule [] rate most r c (memory reals.old counts.old) }
{
    let trained = trained_from(rule.averages, most);
    gather(
        importances,
        reals,
        r + (most + 1),
        r + trained,
        recut::gather,
    );
    gather(
        counters,
        counts,
        c + (2 * most + 2),
        c + 2,
        recut::gather_counts,
    );
    adapt(reals, counts, most, r, c, rule, rate, importances, counters)
}

// The update of an axis: new edges, or what it gathered, or a finding; then it stays as it was. The last two are work room.
pub fn update_axis(
    reals: &mut [f64],
    counts: &mut [u64],
    most: usize,
    r: usize,
    c: usize,
    rule: Rule,
    values: &[u64],
    rate: f64,
    importances: &mut [f64],
    counters: &mut [u64],
) -> Found
    requires { Roomy most (get_or counts.old c 0) r c reals.old counts.old × Within most rule values.now × (most ≤ length importances.old)
        × (most ≤ length counters.old) }
    ensures { found result (memory reals.new counts.new) ≡
        update_at rule values.now rate most r c (memory reals.old counts.old) }
{
    let n = counts[c] as usize;
    let mut next = rule;
    next.bins = bins_after(rule, values, counts[c + 1]);
    renew_axis(
        reals,
        counts,
        most,
        r,
        c,
        next,
        rate,
        &mut importances[0..n],
        &mut counters[0..n],
    )
}

// The update of each axis in turn, on lent work room: what one finds does not keep the others from their update.
fn update_each(
    reals: &mut [f64],
    counts: &mut [u64],
    g: AxesAt,
    rule: Rule,
    values: &[u64],
    rate: f64,
    importances: &mut [f64],
    counters: &mut [u64],
) -> Found
    requires { Stands reals.old counts.old g × Within g.most rule values.now × (g.most ≤ length importances.old)
        × (g.most ≤ length counters.old) }
    ensures { found result (memory reals.new counts.new) ≡
        update_all_at rule values.now rate g.most g.axes g.reals g.counts (memory reals.old counts.old) }
{
    let most = g.most;
    let axes = g.axes;
    let reals_each = 6 * most + 1;
    let counts_each = 3 * most + 2;
    let mut found = Found::NOTHING;
    let mut r = g.reals;
    let mut c = g.counts;
    for _ in 0..axes {
        found |= update_axis(
            reals,
            counts,
            most,
            r,
            c,
            rule,
            values,
            rate,
            importances,
            counters,
        );
        r = r + reals_each;
        c = c + counts_each;
    }
    found
}

// The update of a grid's axes in turn.
pub fn update_axes(
    reals: &mut [f64],
    counts: &mut [u64],
    g: AxesAt,
    rule: Rule,
    values: &[u64],
    rate: f64,
) -> Found
    requires { Stands reals.old counts.old g × Within g.most rule values.now }
    ensures { found result (memory reals.new counts.new) ≡
        update_all_at rule values.now rate g.most g.axes g.reals g.counts (memory reals.old counts.old) }
{
    let mut importances = [0.0f64; 1024];
    let mut counters = [0u64; 1024];
    update_each(
        reals,
        counts,
        g,
        rule,
        values,
        rate,
        &mut importances,
        &mut counters,
    )
}
