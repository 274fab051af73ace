//! Runs a program on one thread: its points one at a time, its operations with their entries, and its report.
#![tactic(auto)]

mod ahead;
mod evaluator;
mod globals;
mod moves;
pub mod run;
mod stack;
