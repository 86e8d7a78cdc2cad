// Texts line by line: the next line, where a line may stand, and what is wrong in a text.
#![tactic(auto)]

pub mod fault;
pub mod next;
pub mod place;
pub mod reading;
