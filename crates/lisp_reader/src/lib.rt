//! Reads the text of a program, and prints values.
#![tactic(auto)]

mod build;
mod gather;
mod meaning;
mod opens;
pub mod print;
pub mod reader;
mod scan;
mod stack;
