//! What one thread of a whole program does next, and its state after that.
#![tactic(auto)]

pub mod rows;
