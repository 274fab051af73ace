ghost use Rattle.std.specs.Prelude.{◌≡◌, ◌≤◌, ℕ, IfOk, List, OnOk, Option};
ghost use Rattle.std.specs.List.{list_all};
ghost use Rattle.lisp_data.specs.Data.{NoData};
ghost use Rattle.lisp_data.specs.First.{with_first};
ghost use Rattle.form_shapes.specs.Bindings;
ghost use Rattle.form_shapes.specs.inside.Contexts.{is_told, scope_in, with_opened};
ghost use Rattle.form_shapes.specs.inside.One.{bound_by, is_declared, items_first, let_variables, symbol_by};
ghost use Rattle.form_shapes.specs.Seats.{parameters_in, scope_within};
ghost use Rattle.form_shapes.specs.Scopes;
ghost use Rattle.form_shapes.specs.Scopes.{Scope};
ghost use Rattle.form_shapes.specs.inside.Sizes.{size_of};

use crate::levels::{Level, Levels};
use crate::scope::{
    Context, Opened, first_symbol, has, is_named, is_variable_name, leaf_symbol, opened_in,
};
use crate::single::rest;
use lisp_base::id::SymbolId;
use lisp_base::memory::Memory;
use lisp_base::refusal::Refusal;
use lisp_data::datum::Leaf;
use lisp_data::items::{First, Items};
use std::alloc::Global;
use symbol_table::symbols::Symbols;

/// The most arguments, parameters or variables of one form.
pub const MOST: u32 = 64;

/// Whether a leaf is a string.
fn is_text(leaf: Leaf) -> bool
    ensures { result ≡ Bindings.is_text leaf }
{
    match leaf {
        Leaf::Text(_) => true,
        _ => false,
    }
}

/// Whether the first of these is a string.
pub fn is_text_first(items: &Items) -> bool
    ensures { result ≡ Bindings.is_text_first items.now }
{
    let Some((first, _)) = items.split_first() else {
        return false;
    };
    match first {
        First::Leaf(leaf, _) => is_text(leaf),
        First::List(_, _) => false,
    }
}

/// The variable that a list of these binds.
fn bound_in_list(under: &Items) -> Option<SymbolId>
    ensures { result ≡ Bindings.bound_in_list under.now }
{
    if under.count() < 3 {
        first_symbol(under)
    } else {
        None
    }
}

/// The variable that a binding binds.
fn bound_by(first: &First) -> Option<SymbolId>
    ensures { result ≡ bound_by first.now }
{
    match first {
        First::Leaf(leaf, _) => leaf_symbol(*leaf),
        First::List(_, under) => bound_in_list(under),
    }
}

/// The symbol that a datum is.
fn symbol_by(first: &First) -> Option<SymbolId>
    ensures { result ≡ symbol_by first.now }
{
    match first {
        First::Leaf(leaf, _) => leaf_symbol(*leaf),
        First::List(_, _) => None,
    }
}

/// The variables of these bindings, where all bindings have their shape.
fn bound_in(alloc: Global, bindings: Items) -> Result<Option<Vec<SymbolId>>, Memory>
    ensures { IfOk result (λ variables. is_told variables (Bindings.bound_in bindings.entry)) }
{
    let mut variables = Vec::new(alloc);
    let mut left = bindings;
    while let Some((first, others)) = left.split_first() {
        let Some(symbol) = bound_by(&first) else {
            return Ok(None);
        };
        variables.push(symbol)?;
        left = others;
    }
    Ok(Some(variables))
}

/// The variables of a `let` with these arguments, where they begin with a list of bindings.
pub fn variables_of(alloc: Global, arguments: &Items) -> Result<Option<Vec<SymbolId>>, Memory>
    ensures { IfOk result (λ variables. is_told variables (Bindings.variables_of arguments.now)) }
{
    let Some((first, _)) = arguments.split_first() else {
        return Ok(None);
    };
    match first {
        First::Leaf(_, _) => Ok(None),
        First::List(_, under) => bound_in(alloc, under),
    }
}

/// The symbols that these data are, where all are symbols.
fn symbols_in(alloc: Global, items: Items) -> Result<Option<Vec<SymbolId>>, Memory>
    ensures { IfOk result (λ symbols. is_told symbols (Bindings.symbols_in items.entry)) }
{
    let mut symbols = Vec::new(alloc);
    let mut left = items;
    while let Some((first, others)) = left.split_first() {
        let Some(symbol) = symbol_by(&first) else {
            return Ok(None);
        };
        symbols.push(symbol)?;
        left = others;
    }
    Ok(Some(symbols))
}

/// The parameters, where these begin with a list of symbols.
pub fn parameters_of(alloc: Global, arguments: &Items) -> Result<Option<Vec<SymbolId>>, Memory>
    ensures { IfOk result (λ parameters. is_told parameters (Bindings.parameters_of arguments.now)) }
{
    let Some((first, _)) = arguments.split_first() else {
        return Ok(None);
    };
    match first {
        First::Leaf(_, _) => Ok(None),
        First::List(_, under) => symbols_in(alloc, under),
    }
}

/// The variables of a `let` with these arguments, or no variables where they do not have their shape.
pub fn variables_in(alloc: Global, arguments: &Items) -> Result<Vec<SymbolId>, Memory>
    ensures { IfOk result (λ variables. variables.items ≡ let_variables arguments.now) }
{
    match variables_of(alloc, arguments)? {
        Some(variables) => Ok(variables),
        None => Ok(Vec::new(alloc)),
    }
}

/// The parameters with which these begin, or no parameters where they do not have their shape.
pub fn parameters_in(alloc: Global, arguments: &Items) -> Result<Vec<SymbolId>, Memory>
    ensures { IfOk result (λ parameters. parameters.items ≡ parameters_in arguments.now) }
{
    match parameters_of(alloc, arguments)? {
        Some(parameters) => Ok(parameters),
        None => Ok(Vec::new(alloc)),
    }
}

/// The items of the list that is the first of these.
pub fn items_first<'a>(arguments: &Items<'a>) -> Items<'a>
    ensures is { result ≡ items_first arguments.now }
    ensures small { size_of result ≤ size_of arguments.now }
{
    match arguments.split_first() {
        None => rest(arguments, 0),
        Some((first, _)) => match first {
            First::Leaf(_, _) => rest(arguments, arguments.count()),
            First::List(_, under) => under,
        },
    }
}

/// Whether these symbols are all different.
fn are_different(symbols: &[SymbolId]) -> bool
    ensures { result ≡ Bindings.are_different symbols.now }
{
    for (index, symbol) in symbols.iter().enumerate() {
        if has(&symbols[index + 1..], *symbol) {
            return false;
        }
    }
    true
}

/// Whether all these may be bound.
fn are_variable_names(symbols: &Symbols, variables: &[SymbolId]) -> bool
    ensures { result ≡ list_all (Scopes.is_variable_name symbols.now) variables.now }
{
    variables
        .iter()
        .all(|symbol| is_variable_name(symbols, *symbol))
}

/// The fault that these variables have: a constant among them, too many, or one that is there twice.
fn variables_fault(symbols: &Symbols, variables: &[SymbolId]) -> Option<Refusal>
    ensures { result ≡ Bindings.variables_fault symbols.now variables.now }
{
    if !are_variable_names(symbols, variables) {
        return Some(Refusal::BadForm);
    }
    if variables.len() > MOST as usize {
        return Some(Refusal::TooMany);
    }
    if !are_different(variables) {
        return Some(Refusal::DefinedTwice);
    }
    None
}

/// The fault of what may be a list of variables.
pub fn list_fault(symbols: &Symbols, variables: &Option<Vec<SymbolId>>) -> Option<Refusal>
    ensures { (told : Option (List ℕ)) → is_told variables.now told → result ≡ Bindings.list_fault symbols.now told }
{
    match variables {
        None => Some(Refusal::BadForm),
        Some(variables) => variables_fault(symbols, variables.as_slice()),
    }
}

/// Opens a variable of a `let`: a special one opens nothing that has a number.
pub fn open_variable(
    specials: &[SymbolId],
    variable: SymbolId,
    opened: &mut Opened,
) -> Result<(), Memory>
    ensures { OnOk result ((s : Scope) → specials.now ≡ s.specials → with_opened s opened.new ≡ Bindings.opened_by (with_opened s opened.old) variable) }
{
    if has(specials, variable) {
        return Ok(());
    }
    opened.open(Level::Variable(variable))
}

/// What is open after these variables of a `let`.
pub fn opened(alloc: Global, context: &Context, variables: &[SymbolId]) -> Result<Opened, Memory>
    ensures { IfOk result (λ opened. with_opened (scope_in context.now) opened ≡ Bindings.opened (scope_in context.now) variables.now) }
{
    let mut opened = opened_in(alloc, context)?;
    for variable in variables {
        open_variable(context.specials, *variable, &mut opened)?;
    }
    Ok(opened)
}

/// Opens a parameter: a special one opens a variable that no program can name.
pub fn open_parameter(
    specials: &[SymbolId],
    parameter: SymbolId,
    opened: &mut Opened,
) -> Result<(), Memory>
    ensures { OnOk result ((s : Scope) → specials.now ≡ s.specials → with_opened s opened.new ≡ Bindings.received_by (with_opened s opened.old) parameter) }
{
    if has(specials, parameter) {
        return opened.deepen();
    }
    opened.open(Level::Variable(parameter))
}

/// What is open after these parameters, where nothing is open round them.
pub fn received(alloc: Global, context: &Context, parameters: &[SymbolId]) -> Result<Opened, Memory>
    ensures { IfOk result (λ opened. with_opened (scope_in context.now) opened ≡ scope_within (scope_in context.now) parameters.now) }
{
    let mut opened = Opened {
        levels: Levels::none(alloc),
        depth: 0,
    };
    for parameter in parameters {
        open_parameter(context.specials, *parameter, &mut opened)?;
    }
    Ok(opened)
}

/// Whether SPECIAL stands somewhere in these.
#[cycle(special)]
fn has_special(symbols: &Symbols, items: Items) -> bool
    ensures { result ≡ Bindings.has_special symbols.now items.entry }
{
    let mut left = items;
    while let Some((first, others)) = left.split_first() {
        if has_special_in(symbols, first) {
            return true;
        }
        left = others;
    }
    false
}

/// Whether SPECIAL stands somewhere in a datum.
#[cycle(special)]
fn has_special_in(symbols: &Symbols, first: First) -> bool
    ensures { result ≡ Bindings.has_special symbols.now (with_first first.entry NoData) }
{
    match first {
        First::Leaf(leaf, _) => is_named(symbols, "SPECIAL", leaf_symbol(leaf)),
        First::List(_, under) => has_special(symbols, under),
    }
}

/// Whether a list of these is a `declare` that may begin a body.
fn is_declaration(symbols: &Symbols, under: Items) -> bool
    ensures { result ≡ Bindings.is_declaration symbols.now under.entry }
{
    is_named(symbols, "DECLARE", first_symbol(&under)) && !has_special(symbols, under)
}

/// Whether a datum is a `declare` that may begin a body.
fn is_declared(symbols: &Symbols, first: First) -> bool
    ensures { result ≡ is_declared symbols.now first.entry }
{
    match first {
        First::Leaf(_, _) => false,
        First::List(_, under) => is_declaration(symbols, under),
    }
}

/// The forms of a body, after its declarations.
pub fn after_declarations<'a>(symbols: &Symbols, items: Items<'a>) -> Items<'a>
    ensures is { result ≡ Bindings.after_declarations symbols.now items.entry }
    ensures small { size_of result ≤ size_of items.entry }
{
    let mut left = items;
    while let Some((first, others)) = left.split_first() {
        if !is_declared(symbols, first) {
            return left;
        }
        left = others;
    }
    left
}

/// The forms of a function's body: a string that stands first, with something after it, stands for nothing.
pub fn function_body_of<'a>(symbols: &Symbols, items: Items<'a>) -> Items<'a>
    ensures is { result ≡ Bindings.function_body_of symbols.now items.entry }
    ensures small { size_of result ≤ size_of items.entry }
{
    if is_text_first(&items) && items.count() > 1 {
        return after_declarations(symbols, rest(&items, 1));
    }
    after_declarations(symbols, items)
}
