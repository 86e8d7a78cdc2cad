// Whether a class table folds a full map onto a folded one. An offered fold becomes an accepted one only by its check.
#![tactic(auto)]

pub mod accepted;
pub mod fault;
pub mod offer;
mod questions;
