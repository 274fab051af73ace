//! Code: the points of a program laid out as instructions, one after the other.
#![tactic(auto)]

pub mod code;
pub mod instr;
pub mod operands;
pub mod rows;
mod valid;
