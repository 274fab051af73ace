//! Programs as trees of core forms.
#![tactic(auto)]

pub mod form;
pub mod function;
