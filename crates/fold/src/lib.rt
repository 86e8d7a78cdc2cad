// What an accepted fold is good for: labels asked through it, chains of folds, and calls on both sessions.
#![tactic(auto)]

pub mod ask;
pub mod both;
pub mod chain;
pub mod fault;
