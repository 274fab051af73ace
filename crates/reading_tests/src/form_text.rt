//! Expanded programs as text, for the tests of the expander.
//!
//! A constant is its value, and any other form a list of a word and what comes after it: names, values and numbers of its kind, and the forms under it. `(if (local 0) 1 NIL)` tests the lexical variable 0. After main's forms comes each function, as `(function F 2 ..)` with its name or place, how many parameters it has, and its body.
use crate::form_words::{keys, numbers, symbol, value, word};
use crate::tables::Tables;
use lisp_base::id::Place;
use lisp_base::refusal::Rejection;
use lisp_base::value::Value;
use lisp_data::datum::Datum;
use lisp_forms::expander::expand;
use lisp_program::form::{CoreKind, FormNode, FunctionForm, Program};
use lisp_reader::print::print_value;
use std::alloc::{AllocError, Global};
use std::test::Fail;
use symbol_table::error::InternError;

/// What data expand to, with the place of each form or without, or the name and place of their refusal.
pub fn expansion(
    alloc: Global,
    data: &[Datum],
    tables: &Tables,
    with_places: bool,
) -> Result<String, Fail> {
    let outcome = expand(alloc, data, &tables.symbols, &tables.texts);
    match &outcome {
        Ok(program) => printed(alloc, program, tables, with_places),
        Err(rejection) => refused(alloc, rejection),
    }
}

/// Whether data are a program, or the name and place of their refusal.
pub fn verdict(alloc: Global, data: &[Datum], tables: &Tables) -> Result<String, Fail> {
    let outcome = expand(alloc, data, &tables.symbols, &tables.texts);
    match &outcome {
        Ok(_) => Ok(format!(in alloc; "accepted")?),
        Err(rejection) => refused(alloc, rejection),
    }
}

/// The name and place of a refusal.
fn refused(alloc: Global, rejection: &Rejection) -> Result<String, Fail> {
    match rejection {
        Rejection::Refused { refusal, place } => {
            let name = refusal.name();
            let at = place.0;
            Ok(format!(in alloc; "refusal {name} at {at}")?)
        }
        Rejection::Memory => Err("memory ran out".into()),
    }
}

/// A program as text.
fn printed(
    alloc: Global,
    program: &Program,
    tables: &Tables,
    with_places: bool,
) -> Result<String, Fail> {
    let mut printed = String::new(alloc);
    push_forms(alloc, &mut printed, program.main(), tables, with_places)?;
    for function in program.functions() {
        push_function(alloc, &mut printed, function, tables, with_places)?;
    }
    Ok(printed)
}

/// Adds a function to a text.
fn push_function(
    alloc: Global,
    printed: &mut String,
    function: &FunctionForm,
    tables: &Tables,
    with_places: bool,
) -> Result<(), Fail> {
    push_blank(printed)?;
    printed.push_str("(function")?;
    push_place(printed, function.place(), with_places)?;
    let named = FormNode {
        kind: CoreKind::Function(function.name()),
        place: function.place(),
        parts: 0,
    };
    push_operands(alloc, printed, &named, tables)?;
    push_number(printed, Some(function.params()))?;
    push_forms(alloc, printed, function.body(), tables, with_places)?;
    Ok(printed.push(')')?)
}

/// Adds forms to a text, each list closed after the last form in it.
fn push_forms(
    alloc: Global,
    printed: &mut String,
    nodes: &[FormNode],
    tables: &Tables,
    with_places: bool,
) -> Result<(), Fail> {
    let mut open = Vec::new(alloc);
    for node in nodes {
        push_blank(printed)?;
        push_form(alloc, printed, node, tables, with_places)?;
        for _ in 0..lists_ended(&mut open, node)? {
            printed.push(')')?;
        }
    }
    Ok(())
}

/// Adds a form to a text. Its list stays open.
fn push_form(
    alloc: Global,
    printed: &mut String,
    node: &FormNode,
    tables: &Tables,
    with_places: bool,
) -> Result<(), Fail> {
    match node.kind {
        CoreKind::Constant(constant) => {
            push_value(alloc, printed, &constant, tables)?;
            Ok(push_place(printed, node.place, with_places)?)
        }
        _ => {
            printed.push('(')?;
            printed.push_str(word(node))?;
            push_place(printed, node.place, with_places)?;
            push_operands(alloc, printed, node, tables)
        }
    }
}

/// Adds what the kind of a form says besides its word to a text, each with a blank before it.
fn push_operands(
    alloc: Global,
    printed: &mut String,
    node: &FormNode,
    tables: &Tables,
) -> Result<(), Fail> {
    let [first_key, second_key] = keys(node);
    printed.push_str(first_key)?;
    printed.push_str(second_key)?;
    if let Some(id) = symbol(node) {
        printed.push(' ')?;
        printed.push_str(tables.symbols.name(id).unwrap_or("no name"))?;
    }
    if let Some(operand) = value(node) {
        printed.push(' ')?;
        push_value(alloc, printed, &operand, tables)?;
    }
    let [first, second] = numbers(node);
    push_number(printed, first)?;
    Ok(push_number(printed, second)?)
}

/// Adds a value to a text.
fn push_value(
    alloc: Global,
    printed: &mut String,
    value: &Value,
    tables: &Tables,
) -> Result<(), Fail> {
    let text = print_value(alloc, value, true, &tables.symbols, &tables.texts).map_err(
        InternError::from,
    )?;
    Ok(printed.push_str(text.as_str())?)
}

/// Adds a blank to a text that is not empty.
fn push_blank(printed: &mut String) -> Result<(), AllocError> {
    if printed.is_empty() {
        Ok(())
    } else {
        printed.push(' ')
    }
}

/// Adds a number to a text, if there is one.
fn push_number(printed: &mut String, number: Option<u32>) -> Result<(), AllocError> {
    match number {
        Some(number) => write!(printed, " {number}"),
        None => Ok(()),
    }
}

/// Adds a place to a text, if places are written.
fn push_place(printed: &mut String, place: Place, with_places: bool) -> Result<(), AllocError> {
    if with_places {
        let at = place.0;
        write!(printed, "@{at}")
    } else {
        Ok(())
    }
}

/// How many lists a form ends. Of each list that is open it is kept how many forms are still to come.
fn lists_ended(open: &mut Vec<u32>, node: &FormNode) -> Result<usize, AllocError> {
    if let Some(count) = open.last_mut() {
        *count = u32::saturating_sub(*count, 1);
    }
    match node.kind {
        CoreKind::Constant(_) => {}
        _ => open.push(node.parts)?,
    }
    let ended = open.iter().rev().take_while(|count| **count == 0).count();
    open.truncate(open.len().saturating_sub(ended));
    Ok(ended)
}
