//! Laws of the expansion.
#![tactic(auto)]

pub mod scoping;
pub mod unused;
