// The judge of a whole state in lent memory: the table, the room, every grid's accumulators and axes; and of axes that an update is to adapt.
#![tactic(auto)]

mod judge;
pub mod judging;
pub mod state;
