//! The shared objects of a run, and the operations on them.
#![tactic(auto)]

mod globals;
pub mod thread;
pub mod world;
