//! Tests of the reader and of the expander, as tables of texts. They stand apart from `library_tests`, so that two processors can check the tests.
#![tactic(auto)]

#[cfg(test)]
mod cases;
#[cfg(test)]
mod expanded;
#[cfg(test)]
mod form_limits;
#[cfg(test)]
mod form_places;
#[cfg(test)]
mod form_text;
#[cfg(test)]
mod form_words;
#[cfg(test)]
mod forms;
#[cfg(test)]
mod programs;
#[cfg(test)]
mod refused_texts;
#[cfg(test)]
mod tables;
#[cfg(test)]
mod tokens;
#[cfg(test)]
mod used_names;
