ghost use Rattle.std.specs.Prelude.{◌≡◌, [], length, IfOk, OnOk};
ghost use Rattle.lisp_base.specs.Writing.{Wrote};
ghost use Rattle.lisp_data.specs.Data.{Data, count_of};
ghost use Rattle.form_shapes.specs.inside.Contexts.{scope_of};
ghost use Rattle.form_shapes.specs.Scopes.{first_symbol as first_symbol_in};
ghost use Rattle.form_shapes.specs.Shapes.{shape_of};
ghost use Rattle.lisp_forms.specs.Blocks;
ghost use Rattle.lisp_forms.specs.inside.Known.{known_as};
ghost use Rattle.lisp_forms.specs.inside.Flat.{flat, flat_one};
ghost use Rattle.lisp_forms.specs.Program;

use crate::blocks::{blocked_parts, push_blocked};
use crate::expand::{push_all, push_shaped};
use crate::lowered::lowered;
use crate::made::has_block;
use crate::nodes::push_node;
use crate::program::{
    add_name, built_in, definition_in, definition_of, function_in, function_of, is_built_in,
};
use crate::special::{push_specials, special_parts};
use form_shapes::bindings::{function_body_of, list_fault, parameters_in, parameters_of};
use form_shapes::expanded::{Expanded, ExpandedNode};
use form_shapes::keywords::Roles;
use form_shapes::levels::Level;
use form_shapes::operator::Operator;
use form_shapes::scope::{Within, first_symbol, has};
use form_shapes::shape::Shape;
use form_shapes::within::{leaf_within, received_within, shape_within};
use lisp_base::id::{Place, SymbolId};
use lisp_base::memory::Memory;
use lisp_base::refusal::Refusal;
use lisp_base::value::Value;
use lisp_base::writer::Writer;
use lisp_data::datum::Datum;
use lisp_data::items::{First, Items};
use lisp_program::form::CoreKind;
use std::alloc::Global;
use symbol_table::symbols::Symbols;

/// A program may define so many special variables.
const MOST_SPECIALS: usize = 256;

/// What is defined before a form.
#[derive(Drop)]
pub struct Known {
    pub variables: Vec<SymbolId>,
    pub functions: Vec<SymbolId>,
}

/// A definition of a variable with so many arguments, by `defvar` or else by `defparameter`.
fn definition_shape(symbol: SymbolId, by_defvar: bool, count: u32) -> Shape
    ensures { (args : Data) → count ≡ count_of args → result ≡ Program.definition_shape symbol by_defvar args }
{
    if by_defvar && count == 1 {
        return Shape::Leaf(Expanded::Form(CoreKind::Constant(Value::symbol(symbol))));
    }
    if by_defvar {
        return Shape::Over(CoreKind::Defvar(symbol), Roles::Just(1));
    }
    Shape::Over(CoreKind::Defparameter(symbol), Roles::Just(1))
}

/// A definition of a variable with so many arguments, where these variables are defined before it.
fn variable_shape(
    known: &[SymbolId],
    place: Place,
    symbol: SymbolId,
    by_defvar: bool,
    count: u32,
) -> Shape
    ensures { (args : Data) → count ≡ count_of args → result ≡ Program.variable_shape known.now place symbol by_defvar args }
{
    if has(known, symbol) {
        return Shape::Wrong(Refusal::DefinedTwice, place);
    }
    if known.len() == MOST_SPECIALS {
        return Shape::Wrong(Refusal::TooMany, place);
    }
    definition_shape(symbol, by_defvar, count)
}

/// A definition of a function whose parameters have this fault or none, where these functions are defined before it.
fn defun_shape(
    symbols: &Symbols,
    known: &[SymbolId],
    place: Place,
    name: SymbolId,
    fault: Option<Refusal>,
) -> Shape
    ensures { result ≡ Program.defun_shape symbols.now known.now place name fault }
{
    let is_new = !has(known, name) && !is_built_in(symbols, name);
    match fault {
        Some(refusal) if refusal.is(Refusal::DefinedTwice) && is_new => {
            Shape::Leaf(Expanded::RefusedFunction(Refusal::DefinedTwice))
        }
        Some(refusal) => Shape::Wrong(refusal, place),
        None if is_new => Shape::Defun(name),
        None => Shape::Wrong(Refusal::DefinedTwice, place),
    }
}

/// Whether a list of these is a `defvar`.
fn is_defvar(symbols: &Symbols, under: &Items) -> bool
    ensures { result ≡ Program.is_defvar (Program.built_in symbols.now (first_symbol_in under.now)) }
{
    match built_in(symbols, first_symbol(under)) {
        Some(Operator::Defvar) => true,
        _ => false,
    }
}

/// Whether a list of these is ignored at top level.
fn is_ignored(symbols: &Symbols, under: &Items) -> bool
    ensures { result ≡ Program.is_ignored (Program.built_in symbols.now (first_symbol_in under.now)) }
{
    match built_in(symbols, first_symbol(under)) {
        Some(Operator::Ignored) => true,
        _ => false,
    }
}

/// What a list of these is that defines nothing at top level.
fn other_shape(within: Within, place: Place, under: &Items) -> Result<Shape, Memory>
    ensures { IfOk result (λ shape. shape ≡ Program.other_shape (Program.built_in within.entry.base.now.symbols.now (first_symbol_in under.now)) (shape_of (scope_of within.entry) place under.now)) }
{
    if is_ignored(within.base.symbols, under) {
        return Ok(Shape::Leaf(Expanded::Form(CoreKind::Constant(Value::nil()))));
    }
    shape_within(within, place, under)
}

/// What a list of these at top level is.
fn top_shape(within: Within, known: &Known, place: Place, under: &Items) -> Result<Shape, Memory>
    ensures { IfOk result (λ shape. shape ≡ Program.top_shape (scope_of within.entry) (known_as known.now) place (Program.definition_in within.entry.base.now.symbols.now under.now) (Program.function_in within.entry.base.now.symbols.now under.now) under.now) }
{
    let symbols = within.base.symbols;
    if let Some(symbol) = definition_in(symbols, under) {
        let by_defvar = is_defvar(symbols, under);
        let count = under.skip(1).count();
        let known = known.variables.as_slice();
        return Ok(variable_shape(known, place, symbol, by_defvar, count));
    }
    match function_in(within.alloc, symbols, under)? {
        Some(name) => {
            let parameters = parameters_of(within.alloc, &under.skip(2))?;
            let fault = list_fault(symbols, &parameters);
            let known = known.functions.as_slice();
            Ok(defun_shape(symbols, known, place, name, fault))
        }
        None => other_shape(within, place, under),
    }
}

/// Writes a `defun` of this name with these arguments.
fn push_defun(
    within: Within,
    name: SymbolId,
    place: Place,
    arguments: Items,
    nodes: &mut Writer<ExpandedNode>,
)
    ensures { Wrote nodes.old nodes.new (flat_one (Program.top_list_form (scope_of within.entry) place (Shape.Defun name) arguments.entry)) }
{
    let Ok(parameters) = parameters_in(within.alloc, &arguments.skip(1)) else {
        return nodes.fill();
    };
    let bound = parameters.as_slice();
    let Ok(mut open) = received_within(within, bound) else {
        return nodes.fill();
    };
    let count = open.depth;
    if open.open(Level::Block(name)).is_err() {
        return nodes.fill();
    }
    let body = function_body_of(within.base.symbols, arguments.skip(2));
    let forms = body.count();
    let mut written = Writer::new(within.alloc);
    push_all(
        Within {
            levels: &open.levels,
            depth: open.depth,
            ..within
        },
        body,
        &mut written,
    );
    let Ok(written) = written.finish() else {
        return nodes.fill();
    };
    let blocked = blocked_parts(count, forms, written.as_slice());
    let parts = special_parts(within.base.specials, bound, blocked);
    push_node(Expanded::Defun(name, count), place, parts, nodes);
    push_specials(within.base.specials, place, bound, blocked, nodes);
    push_blocked(within.alloc, count, place, forms, written, nodes)
}

/// Writes a list of this shape with these arguments at top level.
fn push_top_shaped(
    within: Within,
    shape: Shape,
    place: Place,
    arguments: Items,
    nodes: &mut Writer<ExpandedNode>,
)
    ensures { Wrote nodes.old nodes.new (flat_one (Program.top_list_form (scope_of within.entry) place shape arguments.entry)) }
{
    match shape {
        Shape::Defun(name) => push_defun(within, name, place, arguments, nodes),
        other => push_shaped(within, other, place, arguments, nodes),
    }
}

/// Writes a list of these at top level.
fn push_top_list(
    within: Within,
    known: &Known,
    place: Place,
    under: Items,
    nodes: &mut Writer<ExpandedNode>,
)
    ensures { Wrote nodes.old nodes.new (flat_one (Program.top_list (scope_of within.entry) (known_as known.now) place under.entry)) }
{
    match top_shape(within, known, place, &under) {
        Ok(shape) => push_top_shaped(within, shape, place, under.skip(1), nodes),
        Err(_) => nodes.fill(),
    }
}

/// Writes the form of a datum at top level.
fn push_top(within: Within, known: &Known, datum: &Datum, nodes: &mut Writer<ExpandedNode>)
    ensures { Wrote nodes.old nodes.new (flat_one (Program.top_form (scope_of within.entry) (known_as known.now) datum.now)) }
{
    let Some((first, _)) = Items::of(datum).split_first() else {
        return push_node(
            Expanded::Refused(Refusal::UnknownOperator),
            Place(0),
            0,
            nodes,
        );
    };
    match first {
        First::Leaf(leaf, place) => push_node(leaf_within(within, leaf), place, 0, nodes),
        First::List(place, under) => push_top_list(within, known, place, under, nodes),
    }
}

/// Adds what a datum defines to what is known.
fn know(alloc: Global, symbols: &Symbols, datum: &Datum, known: &mut Known) -> Result<(), Memory>
    ensures { OnOk result (known_as known.new ≡ Program.known_behind symbols.now datum.now (known_as known.old)) }
{
    add_name(definition_of(symbols, datum), &mut known.variables)?;
    add_name(function_of(alloc, symbols, datum)?, &mut known.functions)
}

/// The forms of a program, with all their implicit blocks.
fn top_forms(within: Within, program: &[Datum]) -> Result<Vec<ExpandedNode>, Memory>
    ensures { IfOk result (λ nodes. nodes.items ≡ flat (Program.top_forms (scope_of within.entry) Program.nothing_known program.now)) }
{
    let mut nodes = Writer::new(within.alloc);
    let mut known = Known {
        variables: Vec::new(within.alloc),
        functions: Vec::new(within.alloc),
    };
    for datum in program {
        push_top(within, &known, datum, &mut nodes);
        know(within.alloc, within.base.symbols, datum, &mut known)?;
    }
    nodes.finish()
}

/// How many forms a program has. It errs where the type has no such number, which no text reaches.
fn count_forms(program: &[Datum]) -> Result<u32, Memory>
    ensures { IfOk result (λ count. count ≡ length program.now) }
{
    match u32::try_from(program.len()) {
        Ok(count) => Ok(count),
        Err(_) => Err(Memory),
    }
}

/// The expansion of a program.
pub fn expansion(within: Within, program: &[Datum]) -> Result<Vec<ExpandedNode>, Memory>
    ensures { IfOk result (λ nodes. nodes.items ≡ flat (Blocks.lowered [] (Program.top_forms (scope_of within.entry) Program.nothing_known program.now))) }
{
    let count = count_forms(program)?;
    let forms = top_forms(within, program)?;
    if !has_block(forms.as_slice()) {
        return Ok(forms);
    }
    let made = lowered(within.alloc, Vec::new(within.alloc), count, forms)?;
    Ok(made)
}
