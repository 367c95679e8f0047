// The calls on a grid in lent memory that take no sample in: a fresh grid and a copy laid, and what a grid says when it is asked: the weight at a
// point or over a region, its summary, its live estimates.
//
// A state is refused, here and in the other crates of calls, by 12 where its table is no plan's, 10 where its slices are too short for that
// plan, and 12 where it is not well formed, in this order: `12, 10, 12` below.
#![tactic(auto)]

mod along;
mod copying;
mod descent;
mod founding;
mod laying;
mod onward;
mod probing;

ghost use Rattle.std.specs.Prelude.{◌≡◌};
ghost use Rattle.doubles.specs.Refusal.{fault_of, paper};
ghost use Rattle.plan.specs.Paper.{gives, plan_read, paper_read};
ghost use Rattle.plan.specs.Calls.{measure_of};
ghost use Rattle.lent.specs.Calls.{probe_of, summary_of, live_of, live_of_bin, fresh_end, founded_of, fresh_of, clone_end, clone_of};
ghost use Rattle.lent.specs.Memory.{memory};

use accumulator::{Estimate, Summary};
use doubles::Refusal;
use judges::state;
use lent::{Lent, Region};
use plan::{Misread, Read};

// Lays a plan's table and its fresh grid, where there is room for all of it. The answer is the plan's: its end and its needs, or a
// refusal with its field's offset. Refused: 1, 2, 3 in the plan; 10. Nothing is written then.
pub fn fresh(
    bytes: &[u8],
    table: &mut [u64],
    reals: &mut [f64],
    counts: &mut [u64],
) -> Result<Read, Misread>
    ensures { fresh_end (paper_read result) table.new (memory reals.new counts.new) ≡
        fresh_of bytes.now table.old (memory reals.old counts.old) }
{
    found(bytes, table, reals, counts, plan::measure_plan(bytes)?)
}

// The plan is known: what it needs, then its table and its grid.
fn found(
    bytes: &[u8],
    table: &mut [u64],
    reals: &mut [f64],
    counts: &mut [u64],
    plan: Read,
) -> Result<Read, Misread>
    requires { measure_of bytes.now ≡ gives (plan_read plan.end plan.needs) }
    ensures { fresh_end (paper_read result) table.new (memory reals.new counts.new) ≡
        founded_of bytes.now (plan_read plan.end plan.needs) table.old (memory reals.old counts.old) }
{
    let short = Misread {
        why: Refusal::Room,
        at: 0,
    };
    if table.len() < plan.needs.words {
        return Err(short);
    }
    if reals.len() < plan.needs.reals {
        return Err(short);
    }
    if counts.len() < plan.needs.counts {
        return Err(short);
    }
    let read = plan::read_plan(bytes, table);
    founding::lay_grid(table, reals, counts, 4, 0);
    read
}

// A copy without the samples that wait in the root, laid in other lent memory; the plan's table serves both. Refused: 12, 10, 12,
// the destination's room behind the source's. It stays then, and so does its room past the copy.
pub fn clone_without_samples(
    table: &[u64],
    reals: &[f64],
    counts: &[u64],
    to_reals: &mut [f64],
    to_counts: &mut [u64],
) -> Result<(), Refusal>
    ensures { clone_end (fault_of result) (memory to_reals.new to_counts.new) ≡
        clone_of table.now (memory reals.now counts.now) (memory to_reals.old to_counts.old) }
{
    let needs = plan::sizes(table)?;
    copying::copy_grid(table, reals, counts, to_reals, to_counts, needs)
}

// The weight at a point, or over the region that open coordinates leave; where the path ends at a bin and no coordinates are given,
// from the probabilities alone. Refused: 12, 10, 12; 4, 6, 4 at each level of the
// path; 4 for the number of coordinates; 5.
pub fn probe(table: &[u64], reals: &[f64], counts: &[u64], p: Region) -> Result<f64, Refusal>
    ensures { paper result ≡ probe_of table.now reals.now counts.now p }
{
    state::fault(table, reals, counts)?;
    let m = Lent {
        table,
        reals,
        counts,
    };
    descent::probe_grid(m, 4, 0, p, 0)
}

// Iterations, samples, average, error and chi-squared of the whole grid, and whether it is flat. Refused: 12, 10, 12.
pub fn summary(table: &[u64], reals: &[f64], counts: &[u64]) -> Result<Summary, Refusal>
    ensures { paper result ≡ summary_of table.now reals.now counts.now }
{
    state::fault(table, reals, counts)?;
    let m = Lent {
        table,
        reals,
        counts,
    };
    along::own(m).summary()
}

// Average, error and chi-squared as if the iteration ended now. Refused: 12, 10, 12; 8.
pub fn live_estimate(table: &[u64], reals: &[f64], counts: &[u64]) -> Result<Estimate, Refusal>
    ensures { paper result ≡ live_of table.now reals.now counts.now }
{
    state::fault(table, reals, counts)?;
    let m = Lent {
        table,
        reals,
        counts,
    };
    along::own(m).get_live_estimate()
}

// The same of the bin at the end of a path. Refused: 12, 10, 12; 4, 6, 4 at each level of the path; 8.
pub fn live_estimate_of_bin(
    table: &[u64],
    reals: &[f64],
    counts: &[u64],
    path: [usize; 4],
    levels: usize,
) -> Result<Estimate, Refusal>
    ensures { paper result ≡ live_of_bin table.now reals.now counts.now path levels }
{
    state::fault(table, reals, counts)?;
    let m = Lent {
        table,
        reals,
        counts,
    };
    along::estimate_along(m, 4, 0, path, levels, 0)
}
