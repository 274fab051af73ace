//! The shared objects, the operations on them, and what each operation does.
#![tactic(auto)]

pub mod entry;
pub mod global;
pub mod op;
pub mod phase;
