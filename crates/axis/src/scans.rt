// Tests that run over whole stretches. Each looks at all of its stretch with no jump, by several at once; a chain with `all` stops, and so tests
// and jumps at each.
ghost use Rattle.std.specs.Prelude.{◌≡◌};
ghost use Rattle.doubles.specs.Total.{all_finite};
ghost use Rattle.axis.specs.Edges.{rising, well_formed, in_unit};
ghost use Rattle.axis.specs.Scans.{all_bounded};

// Whether the edges rise strictly.
pub fn is_rising(edges: &[f64]) -> bool
    ensures { result ≡ rising edges.now }
{
    let mut ok = true;
    for k in 1..edges.len() {
        ok = ok & (edges[k - 1] < edges[k]);
    }
    ok
}

// Whether the edges rise strictly from 0 to 1.
pub fn is_well_formed(edges: &[f64]) -> bool
    ensures { result ≡ well_formed edges.now }
{
    let n = edges.len();
    if n < 2 {
        return false;
    }
    if edges[0] != 0.0 {
        return false;
    }
    if edges[n - 1] != 1.0 {
        return false;
    }
    is_rising(edges)
}

// Whether x is a number in [0, 1].
pub fn in_unit(x: f64) -> bool
    ensures { result ≡ in_unit x }
{
    0.0 <= x && x <= 1.0
}

// Whether every double is finite.
pub fn are_finite(xs: &[f64]) -> bool
    ensures { result ≡ all_finite xs.now }
{
    let mut ok = true;
    for x in xs {
        ok = ok & plain::finite(*x);
    }
    ok
}

// Whether every count is at most 2^53.
pub fn are_bounded(ns: &[u64]) -> bool
    ensures { result ≡ all_bounded ns.now }
{
    let mut ok = true;
    for n in ns {
        ok = ok & (*n <= 9007199254740992);
    }
    ok
}
