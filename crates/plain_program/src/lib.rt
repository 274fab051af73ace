//! The core forms that are run so far, which forms of a program they are, and their points as steps, one after the other.
#![tactic(auto)]

pub mod act;
pub mod flatten;
pub mod form;
pub mod laws;
mod own_steps;
pub mod plain;
pub mod steps;
