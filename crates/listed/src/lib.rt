// Listed maps: four tables, lent by the caller, that list each state's look, start and targets.
#![tactic(auto)]

pub mod answers;
pub mod fault;
mod judge;
pub mod table;
