//! What all crates share: values, names of objects, conditions, actors, limits, refusals, lists, and what is written piece by piece.
#![tactic(auto)]

pub mod condition;
pub mod id;
pub mod limits;
pub mod memory;
pub mod refusal;
pub mod sequence;
pub mod text_writer;
pub mod value;
pub mod word;
pub mod writer;
