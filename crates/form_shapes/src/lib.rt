//! What names mean, and which shape a datum has as a form, by what is open round it.
#![tactic(auto)]

pub mod bindings;
mod call_shapes;
pub mod class_names;
pub mod clause;
pub mod control;
mod control_shapes;
pub mod expanded;
pub mod function_names;
pub mod keywords;
mod led;
pub mod levels;
pub mod operator;
pub mod scope;
pub mod seat;
pub mod shape;
pub mod single;
mod value_shapes;
pub mod within;
