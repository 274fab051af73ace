//! The points that each form takes, in order.
#![tactic(auto)]

pub mod act;
pub mod rows;
