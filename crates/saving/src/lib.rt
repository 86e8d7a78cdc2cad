// Maps and rule lists written out as texts.
#![tactic(auto)]

pub mod laws;
pub mod maps;
pub mod rows;
