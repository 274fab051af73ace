//! Expands data to programs.
#![tactic(auto)]

mod blocks;
mod bodies;
mod expand;
pub mod expander;
pub mod laws;
mod lets;
mod locks;
mod loops;
mod lowered;
mod made;
mod nodes;
mod program;
mod rows;
mod special;
mod split;
mod top;
