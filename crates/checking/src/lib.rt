// The checker as a function of two texts: a map text and a rule text go in, and the bytes that the program writes come out.
#![tactic(auto)]

pub mod check;
mod fault;
mod marks;
