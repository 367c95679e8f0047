// A copy without samples: what the plan needs goes to the front of the destination, and there the root's waiting samples go.
ghost use Rattle.std.specs.Prelude.{◌≡◌, true, length};
ghost use Rattle.doubles.specs.Refusal.{fault_of};
ghost use Rattle.plan.specs.Paper.{gives};
ghost use Rattle.plan.specs.Calls.{sizes_of};
ghost use Rattle.model.specs.Sound.{sound};
ghost use Rattle.lent.specs.Memory.{memory};
ghost use Rattle.lent.specs.Drawn.{Stands};
ghost use Rattle.lent.specs.Tree.{axes_place, AxesLaid, BinsLaid, Laid};
ghost use Rattle.lent.specs.Cleared.{cleared_memory, cleared_axes, cleared_own, cleared_root};
ghost use Rattle.lent.specs.State.{root_of};
ghost use Rattle.lent.specs.Calls.{clone_end, cloned_by};

use crate::onward;
use doubles::Refusal;
use ground::{accounts, laying, parts};
use judges::state;
use lent::{AxesAt, layout};
use plan::Needs;

// Nothing waits in any axis: edges, importances, extremes, counters and re-cuts stay. A `while`: the axes left are a field
// of the struct that goes on, and a range beside it would count them a second time, for nothing where no index is needed.
pub fn clear_axes(reals: &mut [f64], counts: &mut [u64], g: AxesAt)
    requires { Stands reals.old counts.old g }
    ensures { memory reals.new counts.new ≡ cleared_memory g (memory reals.old counts.old) }
{
    let mut left = g;
    while 0 < left.axes {
        let m = left.most;
        let r = left.reals;
        let c = left.counts;
        let held = counts[c] as usize;
        laying::clear_waiting(reals, counts, m, r, c, held);
        left = onward::after_first(left);
    }
}

// Nothing waits in an axes grid.
fn clear_axes_grid(table: &[u64], reals: &mut [f64], counts: &mut [u64], w: usize)
    requires { AxesLaid table.now (length reals.old) (length counts.old) w × Stands reals.old counts.old (axes_place table.now w) }
    ensures { memory reals.new counts.new ≡ cleared_axes table.now w (memory reals.old counts.old) }
{
    let g = layout::axes_place(table, w);
    let r = table[w + 9] as usize;
    let c = table[w + 10] as usize;
    clear_axes(reals, counts, g);
    accounts::clear(reals, counts, r, c);
}

// Nothing waits in a bins grid's own accumulator and its bins'; what hangs there stays.
fn clear_own(table: &[u64], reals: &mut [f64], counts: &mut [u64], level: usize, w: usize)
    requires { BinsLaid (Laid level table.now (length reals.old) (length counts.old)) table.now (length reals.old) (length counts.old) w }
    ensures { memory reals.new counts.new ≡ cleared_own table.now w (memory reals.old counts.old) }
{
    let r = table[w + 5] as usize;
    let c = table[w + 6] as usize;
    let n = table[w + 2] as usize;
    for i in 0..n {
        accounts::clear(reals, counts, r + 14 + n + 14 * i, c + 7 + 7 * i);
    }
    accounts::clear(reals, counts, r, c);
}

// Nothing waits in the root.
fn clear_root(table: &[u64], reals: &mut [f64], counts: &mut [u64])
    requires { Laid 4 table.now (length reals.old) (length counts.old) 0 × (sound (root_of table.now reals.old counts.old) ≡ true) }
    ensures { memory reals.new counts.new ≡ cleared_root table.now (memory reals.old counts.old) }
{
    if table[0] == 1 {
        clear_axes_grid(table, reals, counts, 0);
        return;
    }
    clear_own(table, reals, counts, 3, 0);
}

// The copy of a grid whose plan needs so much. Refused: 10, 12; the destination stays then.
pub fn copy_grid(
    table: &[u64],
    reals: &[f64],
    counts: &[u64],
    to_reals: &mut [f64],
    to_counts: &mut [u64],
    needs: Needs,
) -> Result<(), Refusal>
    requires { sizes_of table.now ≡ gives needs }
    ensures { clone_end (fault_of result) (memory to_reals.new to_counts.new) ≡
        cloned_by table.now (memory reals.now counts.now) (memory to_reals.old to_counts.old) needs }
{
    state::fault_to(table, reals, counts, to_reals.len(), to_counts.len())?;
    let last = needs.reals;
    let end = needs.counts;
    parts::set(to_reals, 0, &reals[0..last]);
    parts::set(to_counts, 0, &counts[0..end]);
    clear_root(table, to_reals, to_counts);
    Ok(())
}
