// A fresh tree laid down in lent memory: what a grid keeps of its own, then what hangs below it.
ghost use Rattle.std.specs.Prelude.{◌≡◌, ◌+◌, ◌-◌, ◌*◌, ◌<◌, length, get_or};
ghost use Rattle.lent.specs.Memory.{memory};
ghost use Rattle.lent.specs.Tree.{AxesLaid, BinsLaid, Laid};
ghost use Rattle.lent.specs.Founded.{laid_axes, laid_own, laid_child, laid_children, laid_grid};

use crate::laying;
use accumulator::StatisticsAccumulator;
use ground::accounts;
use lent::layout;

// An axes grid: a fresh own accumulator, and axes of even bins.
fn lay_axes_grid(table: &[u64], reals: &mut [f64], counts: &mut [u64], w: usize)
    requires { AxesLaid table.now (length reals.old) (length counts.old) w }
    ensures { memory reals.new counts.new ≡ laid_axes table.now w (memory reals.old counts.old) }
{
    let g = layout::axes_place(table, w);
    let r = table[w + 9] as usize;
    let c = table[w + 10] as usize;
    let n = table[w + 3] as usize;
    accounts::store(reals, counts, r, c, StatisticsAccumulator::new());
    laying::lay_axes(reals, counts, g, n);
}

// A bins grid's own: a fresh accumulator, and for each bin an even probability and a fresh accumulator.
fn lay_own(table: &[u64], reals: &mut [f64], counts: &mut [u64], level: usize, w: usize)
    requires { BinsLaid (Laid level table.now (length reals.old) (length counts.old)) table.now (length reals.old) (length counts.old) w }
    ensures { memory reals.new counts.new ≡ laid_own table.now w (memory reals.old counts.old) }
{
    let r = table[w + 5] as usize;
    let c = table[w + 6] as usize;
    let n = table[w + 2] as usize;
    let even = plain::inv(plain::count(n as u64));
    accounts::store(reals, counts, r, c, StatisticsAccumulator::new());
    for i in 0..n {
        reals[r + 14 + i] = even;
        accounts::store(
            reals,
            counts,
            r + 14 + n + 14 * i,
            c + 7 + 7 * i,
            StatisticsAccumulator::new(),
        );
    }
}

// What hangs at a link: nothing where it is 0.
#[cycle(lay_child_lay_children_lay_grid)]
fn lay_child(table: &[u64], reals: &mut [f64], counts: &mut [u64], level: usize, link: usize)
    requires { (link ≡ 0 → ⊥) → Laid level table.now (length reals.old) (length counts.old) link }
    ensures { memory reals.new counts.new ≡
        laid_child (laid_grid level table.now) link (memory reals.old counts.old) }
{
    if link == 0 {
        return;
    }
    lay_grid(table, reals, counts, level, link);
}

// What hangs at the links of a bins grid, one after the other.
#[cycle(lay_child_lay_children_lay_grid)]
fn lay_children(table: &[u64], reals: &mut [f64], counts: &mut [u64], level: usize, w: usize)
    requires { BinsLaid (Laid level table.now (length reals.old) (length counts.old)) table.now (length reals.old) (length counts.old) w }
    ensures { memory reals.new counts.new ≡
        laid_children (laid_grid level table.now) table.now w 0 (get_or table.now (w + 2) 0) (memory reals.old counts.old) }
{
    let n = table[w + 2] as usize;
    for i in 0..n {
        let link = table[w + 7 + i] as usize;
        lay_child(table, reals, counts, level, link);
    }
}

// The grid whose run begins at word w, fresh, with all below it.
#[cycle(lay_child_lay_children_lay_grid)]
pub fn lay_grid(table: &[u64], reals: &mut [f64], counts: &mut [u64], level: usize, w: usize)
    requires { Laid level table.now (length reals.old) (length counts.old) w }
    ensures { memory reals.new counts.new ≡
        laid_grid level table.now w (memory reals.old counts.old) }
{
    if table[w] == 1 {
        lay_axes_grid(table, reals, counts, w);
        return;
    }
    let below = level - 1;
    lay_own(table, reals, counts, below, w);
    lay_children(table, reals, counts, below, w);
}
