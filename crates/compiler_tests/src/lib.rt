//! Tests of the compiler, as tables of programs. They stand apart from the other tests, so that processors can check them side by side.
#![tactic(auto)]

#[cfg(test)]
mod cases;
#[cfg(test)]
mod compiled;
#[cfg(test)]
mod other_forms;
#[cfg(test)]
mod run_forms;
#[cfg(test)]
mod sizes;
#[cfg(test)]
mod whole_code;
