//! Runs of a whole program: which journals replay, when a run is over, and the report of its last state.
#![tactic(auto)]

pub mod report;
pub mod rows;
