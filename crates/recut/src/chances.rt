// A bins grid's probabilities after an update: raw ones held up by the ratio, then divided by their sum.
ghost use Rattle.std.specs.Prelude.{◌≡◌, map};
ghost use Rattle.doubles.specs.Numbers.{zero64};
ghost use Rattle.recut.specs.Chances.{chance, all_chances, highest, raised_to, share_of};

use crate::{each, higher_of};

// The highest of the raw probabilities, 0 where none is above it.
pub fn highest_of(ps: &[f64]) -> f64
    ensures { result ≡ highest zero64 ps.now }
{
    let mut top = 0.0;
    for p in ps {
        top = higher_of(top, *p);
    }
    top
}

// A raw probability, or the least where it is below that.
fn raised(least: f64, p: f64) -> f64
    ensures { result ≡ raised_to least p }
{
    if p < least {
        return least;
    }
    p
}

// No raw probability below the least.
pub fn raise(ps: &mut [f64], least: f64)
    ensures { ps.new ≡ map (raised_to least) ps.old }
{
    each::map(ps, |p| raised(least, p));
}

// A probability out of its share in the total.
fn share_of(total: f64, q: f64) -> f64
    ensures { result ≡ share_of total q }
{
    q / total
}

// Every probability divided by their sum.
pub fn divide(ps: &mut [f64], total: f64)
    ensures { ps.new ≡ map (share_of total) ps.old }
{
    each::map(ps, |p| share_of(total, p));
}

// Whether a probability is finite and above 0.
pub fn is_chance(p: f64) -> bool
    ensures { result ≡ chance p }
{
    plain::finite(p) & (0.0 < p)
}

// Whether every one is; with no jump, as axis's scans.
pub fn are_chances(ps: &[f64]) -> bool
    ensures { result ≡ all_chances ps.now }
{
    let mut ok = true;
    for p in ps {
        ok = ok & is_chance(*p);
    }
    ok
}
