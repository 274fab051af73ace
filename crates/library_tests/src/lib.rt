//! Tests of public calls of the crates below. They stand apart from these crates, so that each of them is checked once, and not again with its tests.
#![tactic(auto)]

#[cfg(test)]
mod bindings;
#[cfg(test)]
mod code;
#[cfg(test)]
mod journal_lines;
#[cfg(test)]
mod limits;
#[cfg(test)]
mod names;
#[cfg(test)]
mod primitives;
#[cfg(test)]
mod printing;
#[cfg(test)]
mod steps;
#[cfg(test)]
mod words;
#[cfg(test)]
mod world;
