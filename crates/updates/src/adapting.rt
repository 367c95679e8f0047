// The update of a tree in lent memory: children first, then the bins' accumulators, then the bins grid's own and its probabilities. A rule's
// values stay a slice of the table beside it: a rule that borrows would be no value of the definitions.
ghost use Rattle.std.specs.Prelude.{◌≡◌, ◌||◌, ◌+◌, ◌-◌, ◌*◌, ◌≤◌, ◌<◌, length, get_or};
ghost use Rattle.model.specs.Update.{idle, raw_of};
ghost use Rattle.lent.specs.Memory.{memory};
ghost use Rattle.lent.specs.Tree.{AxesLaid, BinsLaid, Laid};
ghost use Rattle.lent.specs.Renewed.{found};
ghost use Rattle.lent.specs.Turns.{child_turned, children_turned};
ghost use Rattle.lent.specs.Adapted.{rule_at, followed, account_updated, accounts_updated, axes_updated, bins_adapted, updated_in};
ghost use Rattle.updates.specs.Own.{bins_place, BinsFit, bins_updated, bins_idle, bins_raws, chances_of, own_adapted, AxesFit, axes_own};

use crate::renewal;
use accumulator::StatisticsAccumulator;
use ground::{accounts, parts};
use judges::judging;
use lent::{AxesAt, Found, Rule, layout};

// The update of the accumulator at r and c; refused, it stays as it was.
fn update_account(reals: &mut [f64], counts: &mut [u64], r: usize, c: usize) -> Found
    requires { (r + 14 ≤ length reals.old) × (c + 7 ≤ length counts.old) }
    ensures { found result (memory reals.new counts.new) ≡ account_updated r c (memory reals.old counts.old) }
{
    match accounts::load(reals, counts, r, c).update_iter(false) {
        Ok(updated) => {
            accounts::store(reals, counts, r, c, updated.after);
            Found::NOTHING
        }
        Err(_) => Found::EIGHT,
    }
}

// A bins grid's plan in numbers, and where its reals and counts begin. `merges` asks where one bin stands (`BinAt`),
// this what a whole run says.
#[derive(Clone, Copy)]
pub struct BinsAt {
    pub bins: usize,
    pub ratio: f64,
    pub averages: bool,
    pub reals: usize,
    pub counts: usize,
}

// What a run says of its axes' update.
#[tactic(auto, unfolding(lent::specs::Adapted::rule_at))]
fn rule_at(table: &[u64], w: usize) -> Rule
    requires { w + 11 ≤ length table.now }
    ensures { result ≡ rule_at table.now w }
{
    Rule {
        bins: table[w + 3] as usize,
        least: table[w + 4],
        averages: table[w + 5] == 1,
    }
}

// Axes, then the accumulator of their grid, which stands before them. That the axes are well formed is asked here, where it costs
// little, so that nothing need be known of what the update of other grids has written.
fn update_standing(
    reals: &mut [f64],
    counts: &mut [u64],
    g: AxesAt,
    rule: Rule,
    values: &[u64],
    rate: f64,
) -> Found
    requires { AxesFit g rule values.now (length reals.old) (length counts.old) }
    ensures { found result (memory reals.new counts.new) ≡ axes_own g rule values.now rate (memory reals.old counts.old) }
{
    if !judging::axes_fit(reals, counts, g, rule.bins as u64, values) {
        return Found::EIGHT;
    }
    let axes = renewal::update_axes(reals, counts, g, rule, values, rate);
    let own = update_account(reals, counts, g.reals - 14, g.counts - 7);
    axes | own
}

// An axes grid: its axes, then its own accumulator.
fn update_axes_grid(
    table: &[u64],
    reals: &mut [f64],
    counts: &mut [u64],
    w: usize,
    rate: f64,
) -> Found
    requires { AxesLaid table.now (length reals.old) (length counts.old) w }
    ensures { found result (memory reals.new counts.new) ≡ axes_updated table.now rate w (memory reals.old counts.old) }
{
    let g = layout::axes_place(table, w);
    let rule = rule_at(table, w);
    let first = w + 11;
    let last = first + table[w + 8] as usize;
    update_standing(reals, counts, g, rule, &table[first..last], rate)
}

// What a bins grid's run says.
#[tactic(auto, unfolding(crate::specs::Own::bins_place))]
fn bins_place(table: &[u64], w: usize) -> BinsAt
    requires { w + 7 ≤ length table.now }
    ensures { result ≡ bins_place table.now w }
{
    BinsAt {
        bins: table[w + 2] as usize,
        ratio: answers::double(table[w + 3]),
        averages: table[w + 4] == 1,
        reals: table[w + 5] as usize,
        counts: table[w + 6] as usize,
    }
}

// The accumulators of a bins grid's bins, one after the other.
fn update_accounts(reals: &mut [f64], counts: &mut [u64], b: BinsAt) -> Found
    requires { BinsFit b (length reals.old) (length counts.old) }
    ensures { found result (memory reals.new counts.new) ≡ bins_updated (b.reals + 14 + b.bins) (b.counts + 7) 0 b.bins (memory reals.old counts.old) }
{
    let n = b.bins;
    let r = b.reals + 14 + n;
    let c = b.counts + 7;
    let mut found = Found::NOTHING;
    for i in 0..n {
        found |= update_account(reals, counts, r + 14 * i, c + 7 * i);
    }
    found
}

// Whether a bin leaves nothing to adapt to.
#[tactic(auto, unfolding(model::specs::Update::idle))]
fn is_idle(averages: bool, a: StatisticsAccumulator) -> bool
    ensures { result ≡ idle averages a }
{
    if averages {
        return a.avg == 0.0;
    }
    (a.err == 0.0) | (a.processed_samples < 2)
}

// Whether all of them do.
fn are_idle(reals: &[f64], counts: &[u64], b: BinsAt) -> bool
    requires { BinsFit b (length reals.now) (length counts.now) }
    ensures { result ≡ bins_idle b (memory reals.now counts.now) 0 b.bins }
{
    let n = b.bins;
    let r = b.reals + 14 + n;
    let c = b.counts + 7;
    let mut all = true;
    for i in 0..n {
        let own = accounts::load(reals, counts, r + 14 * i, c + 7 * i);
        all = all & is_idle(b.averages, own);
    }
    all
}

// A bin's raw probability: the size of its average; or its error times the root of its samples less one, 0 for fewer than two.
#[tactic(auto, using(std::proofs::lemmas::Bool::Decides::nat_tests), unfolding(model::specs::Update::raw_of))]
fn raw_of(averages: bool, a: StatisticsAccumulator) -> f64
    ensures { result ≡ raw_of averages a }
{
    if averages {
        return plain::norm(a.avg);
    }
    if a.processed_samples < 2 {
        return 0.0;
    }
    a.err * root::sqrt(plain::count(a.processed_samples - 1))
}

// The bins' raw probabilities.
fn find_raws(reals: &[f64], counts: &[u64], b: BinsAt, raws: &mut [f64])
    requires { BinsFit b (length reals.now) (length counts.now) × (length raws.old ≡ b.bins) }
    ensures { raws.new ≡ bins_raws b (memory reals.now counts.now) 0 b.bins }
{
    let r = b.reals + 14 + b.bins;
    let c = b.counts + 7;
    for (i, raw) in raws.iter_mut().enumerate() {
        let own = accounts::load(reals, counts, r + 14 * i, c + 7 * i);
        *raw = raw_of(b.averages, own);
    }
}

// The probabilities that follow from the bins, laid down; 9 where one is not finite and above 0. The last is work room.
fn lay_chances(reals: &mut [f64], counts: &[u64], b: BinsAt, room: &mut [f64]) -> Found
    requires { BinsFit b (length reals.old) (length counts.now) × (length room.old ≡ b.bins) }
    ensures { found result (memory reals.new counts.now) ≡ chances_of b (memory reals.old counts.now) }
{
    find_raws(reals, counts, b, room);
    let fit = recut::adapt(room, b.ratio);
    parts::set(reals, b.reals + 14, room);
    Found {
        eight: false,
        nine: !fit,
    }
}

// The probabilities that follow from the bins, found in work room of its own.
fn adapt_chances(reals: &mut [f64], counts: &[u64], b: BinsAt) -> Found
    requires { BinsFit b (length reals.old) (length counts.now) }
    ensures { found result (memory reals.new counts.now) ≡ chances_of b (memory reals.old counts.now) }
{
    let n = b.bins;
    let mut room = [0.0f64; 256];
    lay_chances(reals, counts, b, &mut room[0..n])
}

// A bins grid once its bins are updated: its probabilities and its own accumulator, but for an early return.
fn adapt_bins(reals: &mut [f64], counts: &mut [u64], b: BinsAt, rate: f64) -> Found
    requires { BinsFit b (length reals.old) (length counts.old) }
    ensures { found result (memory reals.new counts.new) ≡ own_adapted b rate (memory reals.old counts.old) }
{
    if (rate == 0.0) | are_idle(reals, counts, b) {
        return Found::NOTHING;
    }
    let chances = adapt_chances(reals, counts, b);
    let own = update_account(reals, counts, b.reals, b.counts);
    chances | own
}

// A bins grid once what hangs below it is updated: its bins' accumulators, then its own.
fn update_bins(table: &[u64], reals: &mut [f64], counts: &mut [u64], w: usize, rate: f64) -> Found
    requires { (w + 7 ≤ length table.now) × BinsFit (bins_place table.now w) (length reals.old) (length counts.old) }
    ensures { found result (memory reals.new counts.new) ≡
        followed (accounts_updated table.now w 0 (get_or table.now (w + 2) 0) (memory reals.old counts.old)) (bins_adapted table.now rate w) }
{
    let b = bins_place(table, w);
    let accounts = update_accounts(reals, counts, b);
    let own = adapt_bins(reals, counts, b, rate);
    accounts | own
}

// What hangs at a link: nothing where it is 0.
#[cycle(update_child_update_children_update_grid)]
fn update_child(
    table: &[u64],
    reals: &mut [f64],
    counts: &mut [u64],
    level: usize,
    link: usize,
    bins_rate: f64,
    axes_rate: f64,
) -> Found
    requires { (link ≡ 0 → ⊥) → Laid level table.now (length reals.old) (length counts.old) link }
    ensures { found result (memory reals.new counts.new) ≡
        child_turned (updated_in level table.now bins_rate axes_rate) link (memory reals.old counts.old) }
{
    if link == 0 {
        return Found::NOTHING;
    }
    update_grid(table, reals, counts, level, link, bins_rate, axes_rate)
}

// What hangs at the links of a bins grid, one after the other.
#[cycle(update_child_update_children_update_grid)]
fn update_children(
    table: &[u64],
    reals: &mut [f64],
    counts: &mut [u64],
    level: usize,
    w: usize,
    bins_rate: f64,
    axes_rate: f64,
) -> Found
    requires { BinsLaid (Laid level table.now (length reals.old) (length counts.old)) table.now (length reals.old) (length counts.old) w }
    ensures { found result (memory reals.new counts.new) ≡
        children_turned (updated_in level table.now bins_rate axes_rate) table.now w 0 (get_or table.now (w + 2) 0) (memory reals.old counts.old) }
{
    let n = table[w + 2] as usize;
    let mut found = Found::NOTHING;
    for i in 0..n {
        let link = table[w + 7 + i] as usize;
        found |= update_child(table, reals, counts, level, link, bins_rate, axes_rate);
    }
    found
}

// The grid whose run begins at word w, with all below it.
#[cycle(update_child_update_children_update_grid)]
pub fn update_grid(
    table: &[u64],
    reals: &mut [f64],
    counts: &mut [u64],
    level: usize,
    w: usize,
    bins_rate: f64,
    axes_rate: f64,
) -> Found
    requires { Laid level table.now (length reals.old) (length counts.old) w }
    ensures { found result (memory reals.new counts.new) ≡
        updated_in level table.now bins_rate axes_rate w (memory reals.old counts.old) }
{
    if table[w] == 1 {
        return update_axes_grid(table, reals, counts, w, axes_rate);
    }
    let below = level - 1;
    let children = update_children(table, reals, counts, below, w, bins_rate, axes_rate);
    let own = update_bins(table, reals, counts, w, bins_rate);
    children | own
}
