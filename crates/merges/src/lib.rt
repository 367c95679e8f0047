// Merges: what stands against the merge of two grids in lent memory, and the merge.
#![tactic(auto)]

mod bins;
mod joining;
mod matching;
mod merging;
mod onward;
mod uniting;

ghost use Rattle.std.specs.Prelude.{◌≡◌};
ghost use Rattle.doubles.specs.Refusal.{fault_of};
ghost use Rattle.lent.specs.Calls.{state_end, mergeable_of, merge_into_of};
ghost use Rattle.lent.specs.Memory.{memory};

use doubles::Refusal;
use judges::state;
use lent::Lent;

// Whether another grid may be merged, or what stands against it. Refused: 12, 10, 12, each of both grids before the
// next number; 4, 11.
pub fn is_mergeable(
    table: &[u64],
    reals: &[f64],
    counts: &[u64],
    other: &[u64],
    theirs: &[f64],
    tallies: &[u64],
) -> Result<(), Refusal>
    ensures { fault_of result ≡ mergeable_of table.now reals.now counts.now other.now theirs.now tallies.now }
{
    state::pair_fault(table, reals, counts, other, theirs, tallies)?;
    let m = Lent {
        table,
        reals,
        counts,
    };
    let o = Lent {
        table: other,
        reals: theirs,
        counts: tallies,
    };
    let found = matching::grid_obstacle(m, 4, 0, o, 0);
    if found == Err(Refusal::Overflow) {
        return Ok(());
    }
    found
}

// Adds the other grid's waiting samples everywhere; the other keeps them. Refused as there; then 8. Nothing is written then.
pub fn merge(
    table: &[u64],
    reals: &mut [f64],
    counts: &mut [u64],
    other: &[u64],
    theirs: &[f64],
    tallies: &[u64],
) -> Result<(), Refusal>
    ensures { state_end (fault_of result) (memory reals.new counts.new) ≡
        merge_into_of table.now (memory reals.old counts.old) other.now (memory theirs.now tallies.now) }
{
    state::pair_fault(table, reals, counts, other, theirs, tallies)?;
    let m = Lent {
        table,
        reals,
        counts,
    };
    let o = Lent {
        table: other,
        reals: theirs,
        counts: tallies,
    };
    matching::grid_obstacle(m, 4, 0, o, 0)?;
    uniting::merge_grid(table, reals, counts, 4, 0, o, 0);
    Ok(())
}
