// Grids in lent memory: the library's public calls, each handed on from the crate that has it, and the records that they take and give.
// specs/ says what the three demands on them are, on the model's grids and on lent memory; proofs/ has each as a theorem.
#![tactic(auto)]

pub use accumulator::{Estimate, Summary};
pub use doubles::Refusal;
pub use lent::{Batched, Coordinates, Drawing, Region, Sample};
pub use merges::{is_mergeable, merge};
pub use plan::{Misread, Needs, Read};
pub use quiet::{
    clone_without_samples, fresh, live_estimate, live_estimate_of_bin, probe, summary,
};
pub use samples::{draw, draw_and_train, train, weight_of};
pub use updates::update;
