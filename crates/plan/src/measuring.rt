// The walk over a plan's bytes that judges and measures.
ghost use Rattle.std.specs.Prelude.{◌≡◌, ◌-◌};
ghost use Rattle.plan.specs.Judged.{judged};
ghost use Rattle.plan.specs.Reading.{tree_of, trees_of, from_bytes, step_of, steps_of};
ghost use Rattle.plan.specs.Bounds.{Inside};

use crate::fields::field_at;
use crate::{Child, Misread, Place};

// Judges what hangs at a place, and says what is taken past it; beside `known`, which says why they are two.
#[cycle(measure_measure_all)]
pub fn measure(level: usize, p: Place, bytes: &[u8]) -> Result<Place, Misread>
    requires { Inside bytes.now p }
    ensures { judged result ≡ step_of (tree_of (from_bytes bytes.now) level p) }
{
    let bin = field_at(bytes, level, p)?;
    match bin.child {
        Child::Nothing | Child::Axes(_) => Ok(bin.past),
        Child::Bins(b) => measure_all(level - 1, b.bins, bin.past, bytes),
    }
}

// The same for children one after the other.
#[cycle(measure_measure_all)]
fn measure_all(level: usize, n: usize, p: Place, bytes: &[u8]) -> Result<Place, Misread>
    requires { Inside bytes.now p }
    ensures { judged result ≡ steps_of (trees_of (λ s q. tree_of (from_bytes bytes.now) level q) (p.tally.words - n) n p) }
{
    let mut here = p;
    for _i in 0..n {
        here = measure(level, here, bytes)?;
    }
    Ok(here)
}
