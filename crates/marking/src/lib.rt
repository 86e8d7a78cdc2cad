// The labels of one row of a rule list, and its reach.
#![tactic(auto)]

pub mod rows;
