// Joint maps: two maps, of any kinds, as one.
#![tactic(auto)]

pub mod answers;
pub mod fault;
pub mod pair;
