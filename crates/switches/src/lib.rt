// Switch maps: the states are the settings of up to 12 switches, and the moves are commands that turn some of them.
#![tactic(auto)]

pub mod answers;
pub mod command;
pub mod fault;
mod judge;
pub mod made;
mod open;
pub mod panel;
