// The turn of a 12.
ghost use Rattle.std.specs.Prelude.{◌≡◌, ◌≤◌, length};
ghost use Rattle.lent.specs.Memory.{memory};
ghost use Rattle.lent.specs.Calls.{summary_of};
ghost use Rattle.feed.specs.Said.{said};
ghost use Rattle.feed.specs.Turns.{turn_end, report_of, renew_of, update_turn};

use crate::fields::{Standing, stands};
use crate::numbers::double_at;
use crate::saying::{goes_on, refuses_due, tells, waits};
use crate::{Phase, Run, Turned};
use doubles::Refusal;

// The line of an updated grid.
#[tactic(auto, using(std::proofs::lemmas::Bool::Decides::nat_tests), unfolding(crate::specs::Turns::report_of))]
fn report(run: Run, table: &[u64], reals: &[f64], counts: &[u64]) -> Turned
    ensures { said result ≡ report_of run (summary_of table.now reals.now counts.now) }
{
    match grid::summary(table, reals, counts) {
        Ok(line) => tells(goes_on(run, Phase::Samples, run.stream, 0, 19), line),
        Err(why) => refuses_due(run, why),
    }
}

// A whole 12.
#[tactic(auto, using(std::proofs::lemmas::Bool::Decides::nat_tests), unfolding(crate::specs::Turns::renew_of, crate::specs::Turns::update_ends))]
fn update(
    run: Run,
    bytes: &[u8],
    table: &[u64],
    reals: &mut [f64],
    counts: &mut [u64],
    spare_reals: &mut [f64],
    spare_counts: &mut [u64],
) -> Turned
    requires { 19 ≤ length bytes.now }
    ensures { turn_end (said result) table.now (memory reals.new counts.new) ≡
        renew_of run bytes.now table.now (memory reals.old counts.old) (length spare_reals.old) (length spare_counts.old) }
{
    let bins_rate = double_at(bytes, 3);
    let axes_rate = double_at(bytes, 11);
    let updated = grid::update(
        table,
        reals,
        counts,
        spare_reals,
        spare_counts,
        bins_rate,
        axes_rate,
    );
    match updated {
        Ok(()) => report(run, table, reals, counts),
        Err(why) => refuses_due(run, why),
    }
}

// A 12 is due.
#[tactic(auto, unfolding(crate::specs::Turns::update_turn, crate::specs::Turns::update_by))]
pub fn read_update(
    run: Run,
    bytes: &[u8],
    last: bool,
    table: &[u64],
    reals: &mut [f64],
    counts: &mut [u64],
    spare_reals: &mut [f64],
    spare_counts: &mut [u64],
) -> Turned
    ensures { turn_end (said result) table.now (memory reals.new counts.new) ≡
        update_turn run bytes.now last table.now (memory reals.old counts.old) (length spare_reals.old) (length spare_counts.old) }
{
    match stands(bytes, 0x12, 16, last) {
        Standing::Waiting => waits(run),
        Standing::Wrong => refuses_due(run, Refusal::Malformed),
        Standing::Whole => update(run, bytes, table, reals, counts, spare_reals, spare_counts),
    }
}
