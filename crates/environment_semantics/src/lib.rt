//! The dynamic environment of a thread: the bindings of special symbols, and what they hold.
#![tactic(auto)]
