// Rule texts, read into a session.
#![tactic(auto)]

pub mod read;
