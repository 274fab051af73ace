//! The texts of journal, report and refusals.
#![tactic(auto)]

pub mod journal;
mod line;
pub mod lines;
pub mod names;
pub mod refusal;
pub mod report;
pub mod run_lines;
