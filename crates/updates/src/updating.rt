// The update as a call: worked out on the spare, judged whole, and only then copied back. The two rates stay two, as the call has them: below
// an axes grid one goes on, at a bins grid both.
ghost use Rattle.std.specs.Prelude.{◌≡◌, length};
ghost use Rattle.doubles.specs.Refusal.{fault_of};
ghost use Rattle.plan.specs.Paper.{gives};
ghost use Rattle.plan.specs.Calls.{sizes_of};
ghost use Rattle.model.specs.Update.{rate_fits};
ghost use Rattle.lent.specs.Memory.{memory};
ghost use Rattle.lent.specs.Tree.{Laid};
ghost use Rattle.lent.specs.State.{fault_to};
ghost use Rattle.lent.specs.Calls.{state_end, renewed_over, updated_by};
ghost use Rattle.updates.specs.Refused.{refused_for};

use crate::adapting;
use doubles::Refusal;
use judges::state;
use plan::Needs;

// Whether a rate is a number in [0, 10].
fn is_rate(r: f64) -> bool
    ensures { result ≡ rate_fits r }
{
    (0.0..=10.0).contains(&r)
}

// The update of memory that is just the plan's, on a spare of the same size. Refused: 8, 9.
fn update_over(
    table: &[u64],
    reals: &mut [f64],
    counts: &mut [u64],
    spare_reals: &mut [f64],
    spare_counts: &mut [u64],
    bins_rate: f64,
    axes_rate: f64,
) -> Result<(), Refusal>
    requires { (length spare_reals.old ≡ length reals.old) × (length spare_counts.old ≡ length counts.old) × Laid 4 table.now (length reals.old) (length counts.old) 0 }
    ensures { state_end (fault_of result) (memory reals.new counts.new) ≡
        renewed_over table.now bins_rate axes_rate (memory reals.old counts.old) }
{
    spare_reals.copy_from_slice(reals);
    spare_counts.copy_from_slice(counts);
    let f = adapting::update_grid(table, spare_reals, spare_counts, 4, 0, bins_rate, axes_rate);
    if f.eight {
        return Err(Refusal::Overflow);
    }
    if f.nine {
        return Err(Refusal::Edges);
    }
    reals.copy_from_slice(spare_reals);
    counts.copy_from_slice(spare_counts);
    Ok(())
}

// What refuses the update before it is worked out: the state and the room of its spare, then a rate.
fn refusal(
    table: &[u64],
    reals: &[f64],
    counts: &[u64],
    places: usize,
    tallies: usize,
    bins_rate: f64,
    axes_rate: f64,
) -> Result<(), Refusal>
    ensures { fault_of result ≡ refused_for (fault_to table.now reals.now counts.now places tallies) bins_rate axes_rate }
{
    state::fault_to(table, reals, counts, places, tallies)?;
    if !(is_rate(bins_rate) & is_rate(axes_rate)) {
        return Err(Refusal::Range);
    }
    Ok(())
}

// The update of a state whose plan needs so much. Refused: 10, 12, 3, 8, 9.
pub fn update_state(
    table: &[u64],
    reals: &mut [f64],
    counts: &mut [u64],
    spare_reals: &mut [f64],
    spare_counts: &mut [u64],
    bins_rate: f64,
    axes_rate: f64,
    needs: Needs,
) -> Result<(), Refusal>
    requires { sizes_of table.now ≡ gives needs }
    ensures { state_end (fault_of result) (memory reals.new counts.new) ≡
        updated_by table.now bins_rate axes_rate (length spare_reals.old) (length spare_counts.old) (memory reals.old counts.old) needs }
{
    let places = spare_reals.len();
    let tallies = spare_counts.len();
    refusal(table, reals, counts, places, tallies, bins_rate, axes_rate)?;
    let last = needs.reals;
    let end = needs.counts;
    update_over(
        table,
        &mut reals[0..last],
        &mut counts[0..end],
        &mut spare_reals[0..last],
        &mut spare_counts[0..end],
        bins_rate,
        axes_rate,
    )
}
