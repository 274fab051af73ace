//! The bindings of special symbols that are in force, and what each symbol holds now.
#![tactic(auto)]

pub mod bindings;
pub mod calls;
