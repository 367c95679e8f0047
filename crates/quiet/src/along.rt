// The bin at the end of a path, and its live estimate.
ghost use Rattle.std.specs.Prelude.{◌≡◌, ◌+◌, ◌-◌, ◌≤◌, ◌<◌, length, get_or};
ghost use Rattle.doubles.specs.Refusal.{paper};
ghost use Rattle.accumulator.specs.Calls.{live_estimate_of};
ghost use Rattle.lent.specs.Lent.{LaidAt, BinsLaidAt, word_at, grid_in, bin_of, root_in};
ghost use Rattle.lent.specs.Sampled.{entries};
ghost use Rattle.lent.specs.Bins.{estimate_along};
ghost use Rattle.lent.specs.State.{own_of};

use accumulator::{Estimate, StatisticsAccumulator};
use doubles::Refusal;
use ground::accounts;
use lent::Lent;

// That of bin i of the bins grid at word w, whose children have so many levels left.
fn estimate_of_bin(m: Lent<'_>, level: usize, w: usize, i: usize) -> Result<Estimate, Refusal>
    requires { BinsLaidAt m level w
        × (i < word_at m (w + 2)) }
    ensures { paper result ≡ live_estimate_of (bin_of m.entry w i).own }
{
    let held = m.table[w + 2] as usize;
    let first = m.table[w + 5] as usize + 14 + held;
    let start = m.table[w + 6] as usize + 7;
    accounts::load(m.reals, m.counts, first + 14 * i, start + 7 * i).get_live_estimate()
}

// From the grid whose run begins at word w on; the path has come so deep. Refused: 4 where no index is left, 6 where the grid has no
// such bin, 4 where the path goes on and no bins grid hangs there; 8.
pub fn estimate_along(
    m: Lent<'_>,
    level: usize,
    w: usize,
    path: [usize; 4],
    levels: usize,
    depth: usize,
) -> Result<Estimate, Refusal>
    requires { LaidAt m level w × (depth + level ≤ 4) }
    ensures { paper result ≡ estimate_along (grid_in m.entry level w) (entries 0 path depth (levels - depth)) }
{
    if m.table[w] == 1 {
        return Err(Refusal::Form);
    }
    if levels <= depth {
        return Err(Refusal::Form);
    }
    let bin = path[depth];
    if m.table[w + 2] as usize <= bin {
        return Err(Refusal::Bin);
    }
    let below = level - 1;
    if levels == depth + 1 {
        return estimate_of_bin(m, below, w, bin);
    }
    let link = m.table[w + 7 + bin] as usize;
    if link == 0 {
        return Err(Refusal::Form);
    }
    estimate_along(m, below, link, path, levels, depth + 1)
}

// The root's own accumulator.
pub fn own(m: Lent<'_>) -> StatisticsAccumulator
    requires { LaidAt m 4 0 }
    ensures { result ≡ own_of (root_in m.entry) }
{
    if m.table[0] == 1 {
        return accounts::load(m.reals, m.counts, m.table[9] as usize, m.table[10] as usize);
    }
    accounts::load(m.reals, m.counts, m.table[5] as usize, m.table[6] as usize)
}
