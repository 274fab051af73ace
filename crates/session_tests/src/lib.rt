//! Tests of the top calls, as programs with all that is written for them. They stand apart so that `lisp_session` is checked once.
#![tactic(auto)]

#[cfg(test)]
mod calls;
#[cfg(test)]
mod ends;
#[cfg(test)]
mod examples;
#[cfg(test)]
mod limits;
#[cfg(test)]
mod runs;
pub mod sure;
#[cfg(test)]
mod tables;
