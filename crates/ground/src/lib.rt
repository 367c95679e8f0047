// What every call that writes lent memory stands on: accumulators as records, parts laid, cleared and copied.
#![tactic(auto)]

pub mod accounts;
mod clearing;
pub mod floors;
pub mod laying;
pub mod parts;
