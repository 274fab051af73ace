//! The abstract machine over the lines of code, and when it stands for the state of a thread.
#![tactic(auto)]
