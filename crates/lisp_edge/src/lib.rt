//! The edge of the program: what it reads from, what it writes to, the time, and the workers' gate.
#![tactic(auto)]

pub mod answers;
pub mod clock;
pub mod gate;
pub mod memory;
pub mod sink;
pub mod source;
pub mod standard;
pub mod sure;
