// Sessions: rows are added, marked on a map, and asked after. A session's calls are lent its map and its label sheet, one by
// one, so that a caller may lend others.
#![tactic(auto)]

pub mod ask;
pub mod held;
pub mod open;
pub mod perform;
pub mod reach;
pub mod rows;
pub mod witness;
