//! Data: what a text of the grammar stands for, with places, and a view of them as trees.
#![tactic(auto)]

pub mod datum;
pub mod items;
pub mod split;
