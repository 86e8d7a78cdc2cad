// Map texts, read into tables that the caller lends.
#![tactic(auto)]

pub mod made;
pub mod progress;
pub mod read;
mod step;
pub mod tables;
