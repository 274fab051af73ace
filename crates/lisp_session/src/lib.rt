//! The top calls: a program from its bytes to its journal and report.
#![tactic(auto)]

pub mod answer;
mod input;
pub mod laws;
pub mod output;
mod program;
pub mod top;
