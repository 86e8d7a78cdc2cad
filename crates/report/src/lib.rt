// The report of a session: for each marked row its verdict and its reach, as a text in a lent buffer.
#![tactic(auto)]

pub mod collect;
pub mod fault;
pub mod found;
pub mod lines;
pub mod write;
