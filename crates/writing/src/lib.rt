// Bytes, numbers, lines and whole texts put into a sink, and texts saved into a lent buffer.
#![tactic(auto)]

pub mod fault;
pub mod line;
pub mod number;
pub mod save;
pub mod sink;
