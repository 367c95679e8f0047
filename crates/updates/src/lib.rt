// The update of a grid in lent memory, worked out on a spare.
#![tactic(auto)]

mod adapting;
mod renewal;
mod updating;

ghost use Rattle.std.specs.Prelude.{◌≡◌, length};
ghost use Rattle.doubles.specs.Refusal.{fault_of};
ghost use Rattle.lent.specs.Calls.{state_end, update_of};
ghost use Rattle.lent.specs.Memory.{memory};

use doubles::Refusal;

// Processes the waiting samples and adapts axes and probabilities, worked out on a spare of the state's size. Refused: 12, 10, 12, the
// spare's room behind the state's; 3 for a rate; 8 anywhere, then 9 anywhere. Nothing of the state is written then.
pub fn update(
    table: &[u64],
    reals: &mut [f64],
    counts: &mut [u64],
    spare_reals: &mut [f64],
    spare_counts: &mut [u64],
    bins_rate: f64,
    axes_rate: f64,
) -> Result<(), Refusal>
    ensures { state_end (fault_of result) (memory reals.new counts.new) ≡
        update_of table.now bins_rate axes_rate (length spare_reals.old) (length spare_counts.old) (memory reals.old counts.old) }
{
    let needs = plan::sizes(table)?;
    updating::update_state(
        table,
        reals,
        counts,
        spare_reals,
        spare_counts,
        bins_rate,
        axes_rate,
        needs,
    )
}
