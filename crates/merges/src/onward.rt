// From axis to axis: the axes of a grid without the first of them.
//
// quiet has it too: what a library hands on asks nothing of its callers, and this asks that there is an axis and room for it; without that
// it would have to test, or to wrap around, at each axis.
ghost use Rattle.std.specs.Prelude.{◌≡◌, ◌+◌, ◌^◌, ◌≤◌, ◌<◌};
ghost use Rattle.lent.specs.Layout.{axis_reals, axis_counts};
ghost use Rattle.lent.specs.Onward.{onward};

use lent::AxesAt;

// The axes after the first, where they begin.
pub fn after_first(g: AxesAt) -> AxesAt
    requires { (0 < g.axes) × (g.most ≤ 1024) × (g.reals + axis_reals g.most < 2 ^ 63) × (g.counts + axis_counts g.most < 2 ^ 63) }
    ensures { result ≡ onward g }
{
    let mut r = g;
    r.axes = g.axes - 1;
    r.reals = g.reals + (6 * g.most + 1);
    r.counts = g.counts + (3 * g.most + 2);
    r
}
