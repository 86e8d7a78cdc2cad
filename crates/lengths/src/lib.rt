// Labels in a sheet, shortest lengths in a work table, and a run read off them.
#![tactic(auto)]

pub mod labels;
pub mod rounds;
pub mod runs;
