//! The functions whose work is one local point.
#![tactic(auto)]

pub mod apply;
mod arguments;
mod comparisons;
mod numbers;
