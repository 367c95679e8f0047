// What stands against a call: each judges the table, the room and the state that it is lent.
ghost use Rattle.std.specs.Prelude.{◌≡◌};
ghost use Rattle.doubles.specs.Refusal.{fault_of};
ghost use Rattle.plan.specs.Paper.{gives};
ghost use Rattle.plan.specs.Calls.{sizes_of};
ghost use Rattle.lent.specs.Lent.{Worded};
ghost use Rattle.lent.specs.State.{judged_to, state_fault, fault_to, both_judged, pair_fault};

use crate::judge;
use doubles::Refusal;
use lent::Lent;
use plan::Needs;

// The room that the plan needs, then that of a destination of so many reals and counts, then the state.
fn judged_to(m: Lent<'_>, places: usize, tallies: usize, needs: Needs) -> Result<(), Refusal>
    requires { (sizes_of m.table.now ≡ gives needs) × Worded m }
    ensures { fault_of result ≡ judged_to m.entry.table.now m.entry.reals.now m.entry.counts.now places tallies needs }
{
    if m.reals.len() < needs.reals {
        return Err(Refusal::Room);
    }
    if m.counts.len() < needs.counts {
        return Err(Refusal::Room);
    }
    if places < needs.reals {
        return Err(Refusal::Room);
    }
    if tallies < needs.counts {
        return Err(Refusal::Room);
    }
    if !judge::grid_fits(m, 4, 0) {
        return Err(Refusal::State);
    }
    Ok(())
}

// What stands against a call with a destination of so many reals and counts: 12 for a table that is no plan's; 10 for slices, or a
// destination, that are too short for it; 12 for a state that is not well formed.
pub fn fault_to(
    table: &[u64],
    reals: &[f64],
    counts: &[u64],
    places: usize,
    tallies: usize,
) -> Result<(), Refusal>
    ensures { fault_of result ≡ fault_to table.now reals.now counts.now places tallies }
{
    let needs = plan::sizes(table)?;
    let m = Lent {
        table,
        reals,
        counts,
    };
    judged_to(m, places, tallies, needs)
}

// The same of a call without one: a state is its own destination.
pub fn fault(table: &[u64], reals: &[f64], counts: &[u64]) -> Result<(), Refusal>
    ensures { fault_of result ≡ state_fault table.now reals.now counts.now }
{
    fault_to(table, reals, counts, reals.len(), counts.len())
}

// Of two states whose plans are known: the room of both, then both states.
fn both_judged(mine: Lent<'_>, needs: Needs, theirs: Lent<'_>, asked: Needs) -> Result<(), Refusal>
    requires { (sizes_of mine.table.now ≡ gives needs) × Worded mine × (sizes_of theirs.table.now ≡ gives asked) × Worded theirs }
    ensures { fault_of result ≡ both_judged mine.entry.table.now mine.entry.reals.now mine.entry.counts.now needs theirs.entry.table.now theirs.entry.reals.now theirs.entry.counts.now asked }
{
    if mine.reals.len() < needs.reals {
        return Err(Refusal::Room);
    }
    if mine.counts.len() < needs.counts {
        return Err(Refusal::Room);
    }
    if theirs.reals.len() < asked.reals {
        return Err(Refusal::Room);
    }
    if theirs.counts.len() < asked.counts {
        return Err(Refusal::Room);
    }
    if !judge::grid_fits(mine, 4, 0) {
        return Err(Refusal::State);
    }
    if !judge::grid_fits(theirs, 4, 0) {
        return Err(Refusal::State);
    }
    Ok(())
}

// What stands against a call on two states: 12 for a table that is no plan's; 10 for slices that are too short; 12 for a state that is
// not well formed; each of both states before the next.
pub fn pair_fault(
    table: &[u64],
    reals: &[f64],
    counts: &[u64],
    other: &[u64],
    theirs: &[f64],
    tallies: &[u64],
) -> Result<(), Refusal>
    ensures { fault_of result ≡ pair_fault table.now reals.now counts.now other.now theirs.now tallies.now }
{
    let needs = plan::sizes(table)?;
    let asked = plan::sizes(other)?;
    let mine = Lent {
        table,
        reals,
        counts,
    };
    let theirs = Lent {
        table: other,
        reals: theirs,
        counts: tallies,
    };
    both_judged(mine, needs, theirs, asked)
}
