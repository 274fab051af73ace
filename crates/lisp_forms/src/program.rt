ghost use Rattle.std.specs.Prelude.{◌≡◌, [], Some, IfOk, OnOk};
ghost use Rattle.lisp_forms.specs.Program;

use form_shapes::bindings::{is_text_first, list_fault, parameters_of};
use form_shapes::function_names::operator_named;
use form_shapes::operator::Operator;
use form_shapes::scope::{as_variable, first_symbol, has, name_of};
use lisp_base::id::SymbolId;
use lisp_base::memory::Memory;
use lisp_base::refusal::Refusal;
use lisp_data::datum::Datum;
use lisp_data::items::{First, Items};
use std::alloc::Global;
use symbol_table::symbols::Symbols;

/// What stands at the front of a list, whatever the program defines.
pub fn built_in(symbols: &Symbols, head: Option<SymbolId>) -> Option<Operator>
    ensures { result ≡ Program.built_in symbols.now head }
{
    operator_named(name_of(symbols, head?))
}

/// Whether `defvar` may have these arguments, but for what the first is.
fn is_definition(arguments: &Items) -> bool
    ensures { result ≡ Program.is_definition arguments.now }
{
    let count = arguments.count();
    count < 3 || (count == 3 && is_text_first(&arguments.skip(2)))
}

/// Whether `defparameter` may have these arguments, but for what the first is.
fn is_parameter(arguments: &Items) -> bool
    ensures { result ≡ Program.is_parameter arguments.now }
{
    let count = arguments.count();
    count == 2 || (count == 3 && is_text_first(&arguments.skip(2)))
}

/// The variable that a list of these defines at top level.
pub fn definition_in(symbols: &Symbols, under: &Items) -> Option<SymbolId>
    ensures { result ≡ Program.definition_in symbols.now under.now }
{
    let operator = built_in(symbols, first_symbol(under));
    let arguments = under.skip(1);
    match operator {
        Some(Operator::Defvar) if is_definition(&arguments) => {
            as_variable(symbols, first_symbol(&arguments))
        }
        Some(Operator::Defparameter) if is_parameter(&arguments) => {
            as_variable(symbols, first_symbol(&arguments))
        }
        _ => None,
    }
}

/// The name of the function of a `defun` with these arguments, where it has its shape.
fn function_by(
    alloc: Global,
    symbols: &Symbols,
    arguments: &Items,
) -> Result<Option<SymbolId>, Memory>
    ensures { IfOk result (λ function. function ≡ Program.function_by symbols.now (Some Operator.Defun) arguments.now) }
{
    let parameters = parameters_of(alloc, &arguments.skip(1))?;
    match list_fault(symbols, &parameters) {
        Some(refusal) if refusal.is(Refusal::BadForm) => Ok(None),
        _ => Ok(as_variable(symbols, first_symbol(arguments))),
    }
}

/// The name of the function of a list of these, where it is a `defun` with its shape.
pub fn function_in(
    alloc: Global,
    symbols: &Symbols,
    under: &Items,
) -> Result<Option<SymbolId>, Memory>
    ensures { IfOk result (λ function. function ≡ Program.function_in symbols.now under.now) }
{
    match built_in(symbols, first_symbol(under)) {
        Some(Operator::Defun) => function_by(alloc, symbols, &under.skip(1)),
        _ => Ok(None),
    }
}

/// The variable that a datum defines at top level.
pub fn definition_of(symbols: &Symbols, datum: &Datum) -> Option<SymbolId>
    ensures { result ≡ Program.definition_of symbols.now datum.now }
{
    let (first, _) = Items::of(datum).split_first()?;
    match first {
        First::Leaf(_, _) => None,
        First::List(_, under) => definition_in(symbols, &under),
    }
}

/// Whether a symbol has the name of an operator or function of the language.
pub fn is_built_in(symbols: &Symbols, symbol: SymbolId) -> bool
    ensures { result ≡ Program.is_built_in symbols.now symbol }
{
    operator_named(name_of(symbols, symbol)).is_some()
}

/// The name of a function, where there is one and the language has none of that name.
fn own_name(symbols: &Symbols, name: Option<SymbolId>) -> Option<SymbolId>
    ensures { result ≡ Program.own_name symbols.now name }
{
    let symbol = name?;
    if is_built_in(symbols, symbol) {
        return None;
    }
    Some(symbol)
}

/// The function that a datum defines at top level. None has a name of the language.
pub fn function_of(
    alloc: Global,
    symbols: &Symbols,
    datum: &Datum,
) -> Result<Option<SymbolId>, Memory>
    ensures { IfOk result (λ function. function ≡ Program.function_of symbols.now datum.now) }
{
    let Some((first, _)) = Items::of(datum).split_first() else {
        return Ok(None);
    };
    match first {
        First::Leaf(_, _) => Ok(None),
        First::List(_, under) => Ok(own_name(symbols, function_in(alloc, symbols, &under)?)),
    }
}

/// Puts a name after others, where there is one and it is new.
pub fn add_name(name: Option<SymbolId>, known: &mut Vec<SymbolId>) -> Result<(), Memory>
    ensures { OnOk result (known.new.items ≡ Program.with_name name known.old.items) }
{
    let Some(symbol) = name else {
        return Ok(());
    };
    if !has(known.as_slice(), symbol) {
        known.push(symbol)?;
    }
    Ok(())
}

/// The variables that a program defines, in order of definition.
pub fn variables(
    alloc: Global,
    symbols: &Symbols,
    program: &[Datum],
) -> Result<Vec<SymbolId>, Memory>
    ensures { IfOk result (λ known. known.items ≡ Program.variables_from symbols.now [] program.now) }
{
    let mut known = Vec::new(alloc);
    for datum in program {
        add_name(definition_of(symbols, datum), &mut known)?;
    }
    Ok(known)
}

/// The functions that a program defines.
pub fn functions(
    alloc: Global,
    symbols: &Symbols,
    program: &[Datum],
) -> Result<Vec<SymbolId>, Memory>
    ensures { IfOk result (λ known. known.items ≡ Program.functions_from symbols.now [] program.now) }
{
    let mut known = Vec::new(alloc);
    for datum in program {
        add_name(function_of(alloc, symbols, datum)?, &mut known)?;
    }
    Ok(known)
}
