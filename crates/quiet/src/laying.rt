// Fresh axes laid down in lent memory, with even edges.
ghost use Rattle.std.specs.Prelude.{◌≡◌, ◌+◌, ◌*◌, ◌≤◌, length, replicate};
ghost use Rattle.lent.specs.Layout.{axis_reals, axis_counts};
ghost use Rattle.lent.specs.Memory.{memory, over_axes};
ghost use Rattle.lent.specs.Laid.{Roomy, lay_at};

use ground::laying;
use lent::AxesAt;

// A fresh axis of n even bins.
fn lay_axis(reals: &mut [f64], counts: &mut [u64], most: usize, r: usize, c: usize, n: usize)
    requires { Roomy most n r c reals.old counts.old }
    ensures { memory reals.new counts.new ≡ lay_at most r c n (memory reals.old counts.old) }
{
    let places = n + 1;
    let end = r + places;
    axis::edges::lay_even(&mut reals[r..end]);
    laying::empty_axis(reals, counts, most, r, c, n, 0);
}

// Fresh axes of n even bins each.
pub fn lay_axes(reals: &mut [f64], counts: &mut [u64], g: AxesAt, n: usize)
    requires { (g.axes ≤ 8) × (n ≤ g.most) × (g.most ≤ 1024) × (g.reals + g.axes * axis_reals g.most ≤ length reals.old)
        × (g.counts + g.axes * axis_counts g.most ≤ length counts.old) }
    ensures { memory reals.new counts.new ≡
        over_axes (lay_at g.most) g.most (replicate g.axes n) g.reals g.counts (memory reals.old counts.old) }
{
    let mut r = g.reals;
    let mut c = g.counts;
    for done in 0..g.axes {
        lay_axis(reals, counts, g.most, r, c, n);
        r = r + (6 * g.most + 1);
        c = c + (3 * g.most + 2);
    }
}
