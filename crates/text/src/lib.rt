// The texts of maps and rules: numbers, lines, and where a line ends.
#![tactic(auto)]

mod field;
mod kind;
pub mod line;
pub mod lines;
pub mod number;
pub mod split;
