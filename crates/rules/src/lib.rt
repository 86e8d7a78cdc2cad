// Rule lists: up to 64 rows, each of which names only earlier ones.
#![tactic(auto)]

pub mod fault;
pub mod list;
