//! The names of symbols and the texts of string literals, each with its number.
#![tactic(auto)]

pub mod error;
pub mod symbols;
mod table;
pub mod texts;

/// How many symbols there may be, and how many string literals.
pub const NAMES: u32 = 4096;
