//! What one thread does next, and its state after that.
#![tactic(auto)]

pub mod next;
