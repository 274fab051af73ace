ghost use Rattle.std.specs.Prelude.{◌≡◌, ℕ, IfOk};
ghost use Rattle.lisp_data.specs.Data.{Atom, NoData};
ghost use Rattle.form_shapes.specs.inside.Contexts.{scope_in};
ghost use Rattle.form_shapes.specs.Levels.{number_of};
ghost use Rattle.form_shapes.specs.Shapes;

use crate::bindings::{list_fault, parameters_of};
use crate::clause::{MOST_CLAUSES, are_clauses};
use crate::keywords::{Roles, keys_in};
use crate::levels::Level;
use crate::scope::{Context, as_variable, first_symbol, has, is_named};
use crate::shape::{Shape, bad, where_holds};
use lisp_base::id::{Place, SymbolId};
use lisp_base::memory::Memory;
use lisp_base::refusal::Refusal;
use lisp_data::datum::Leaf;
use lisp_data::items::{First, Items};
use lisp_program::form::CoreKind;
use std::alloc::Global;
use symbol_table::symbols::Symbols;

/// `block` with these arguments.
pub fn block_shape(place: Place, arguments: &Items) -> Shape
    ensures { result ≡ Shapes.block_shape place arguments.now }
{
    let Some((first, _)) = arguments.split_first() else {
        return bad(place);
    };
    let First::Leaf(leaf, _) = first else {
        return bad(place);
    };
    match leaf {
        Leaf::Symbol(name) => Shape::Block(name),
        _ => bad(place),
    }
}

/// An exit to the innermost block with this name; its value, if it has one, comes after so many arguments.
fn exit_shape(
    context: &Context,
    place: Place,
    name: SymbolId,
    has_value: bool,
    behind: u32,
) -> Shape
    ensures { result ≡ Shapes.exit_shape (scope_in context.now) place name has_value behind }
{
    match context.levels.number_of(&Level::Block(name)) {
        None => Shape::Wrong(Refusal::NoSuchBlock, place),
        Some(number) if has_value => {
            Shape::Over(CoreKind::ReturnFrom(number), Roles::From(behind))
        }
        Some(number) => Shape::OverNil(CoreKind::ReturnFrom(number), Roles::From(behind)),
    }
}

/// `return-from` with these arguments.
pub fn return_from_shape(context: &Context, place: Place, arguments: &Items) -> Shape
    ensures { result ≡ Shapes.return_from_shape (scope_in context.now) place arguments.now }
{
    let Some((first, others)) = arguments.split_first() else {
        return bad(place);
    };
    let First::Leaf(leaf, _) = first else {
        return bad(place);
    };
    let Leaf::Symbol(name) = leaf else {
        return bad(place);
    };
    let count = others.count();
    if count > 1 {
        return bad(place);
    }
    exit_shape(context, place, name, count == 1, 1)
}

/// `return` with these arguments: its block has the name NIL.
pub fn return_shape(context: &Context, place: Place, arguments: &Items) -> Shape
    ensures { result ≡ Shapes.return_shape (scope_in context.now) place arguments.now }
{
    let count = arguments.count();
    if count > 1 {
        return bad(place);
    }
    exit_shape(context, place, SymbolId::nil(), count == 1, 0)
}

/// The number of what the innermost written `without-interrupts` remembers, if there is one.
fn written_region(context: &Context) -> Option<u32>
    ensures { result ≡ number_of Level.Region context.now.levels.now }
{
    context.levels.number_of(&Level::Region)
}

/// `allow-with-interrupts`, which stands only in a written `without-interrupts`.
pub fn allow_shape(context: &Context, place: Place) -> Shape
    ensures { result ≡ Shapes.in_region (scope_in context.now) place (λ n. Shape.Body (CoreKind.AllowWithInterrupts n)) }
{
    match written_region(context) {
        None => Shape::Wrong(Refusal::RegionOutside, place),
        Some(number) => Shape::Body(CoreKind::AllowWithInterrupts(number)),
    }
}

/// `with-local-interrupts`, which stands only in a written `without-interrupts`.
pub fn local_shape(context: &Context, place: Place) -> Shape
    ensures { result ≡ Shapes.in_region (scope_in context.now) place (λ n. Shape.LocalInterrupts n) }
{
    match written_region(context) {
        None => Shape::Wrong(Refusal::RegionOutside, place),
        Some(number) => Shape::LocalInterrupts(number),
    }
}

/// `handler-case` with these clauses.
pub fn handler_shape(symbols: &Symbols, place: Place, arguments: &Items) -> Shape
    ensures { result ≡ Shapes.handler_shape symbols.now place arguments.now }
{
    let clauses = arguments.skip(1);
    let count = clauses.count();
    if arguments.count() == 0 || !are_clauses(symbols, clauses) {
        return bad(place);
    }
    if count > MOST_CLAUSES {
        return Shape::Wrong(Refusal::TooMany, place);
    }
    Shape::Handler
}

/// `with-deadline` with these arguments.
pub fn deadline_shape(symbols: &Symbols, place: Place, arguments: &Items) -> Shape
    ensures { result ≡ Shapes.deadline_shape symbols.now place arguments.now }
{
    let Some((First::List(_, items), _)) = arguments.split_first() else {
        return bad(place);
    };
    match keys_in(symbols, ":SECONDS", ":OVERRIDE", items) {
        None => bad(place),
        Some(keys) => Shape::Deadline {
            seconds: keys.first,
            replaces: keys.second,
        },
    }
}

/// `with-mutex` with these arguments.
pub fn mutex_shape(symbols: &Symbols, place: Place, arguments: &Items) -> Shape
    ensures { result ≡ Shapes.mutex_shape symbols.now place arguments.now }
{
    let Some((First::List(_, items), _)) = arguments.split_first() else {
        return bad(place);
    };
    if items.count() == 0 {
        return bad(place);
    }
    match keys_in(symbols, ":WAIT-P", ":TIMEOUT", items.skip(1)) {
        None => bad(place),
        Some(keys) => Shape::Mutex {
            waitp: keys.first,
            timeout: keys.second,
        },
    }
}

/// `with-recursive-lock` with these arguments.
pub fn lock_shape(place: Place, arguments: &Items) -> Shape
    ensures { result ≡ Shapes.lock_shape place arguments.now }
{
    match arguments.split_first() {
        Some((First::List(_, items), _)) => {
            where_holds(place, items.count() == 1, Shape::RecursiveLock)
        }
        _ => bad(place),
    }
}

/// `dotimes` with these arguments.
pub fn dotimes_shape(symbols: &Symbols, place: Place, arguments: &Items) -> Shape
    ensures { result ≡ Shapes.dotimes_shape symbols.now place arguments.now }
{
    let Some((First::List(_, items), _)) = arguments.split_first() else {
        return bad(place);
    };
    let count = items.count();
    if count != 2 && count != 3 {
        return bad(place);
    }
    match as_variable(symbols, first_symbol(&items)) {
        None => bad(place),
        Some(symbol) => Shape::Dotimes(symbol),
    }
}

/// A `lambda` with these arguments outside a function's seat.
pub fn lambda_outside(
    alloc: Global,
    place: Place,
    symbols: &Symbols,
    arguments: &Items,
) -> Result<Shape, Memory>
    ensures { IfOk result (λ shape. shape ≡ Shapes.lambda_outside place symbols.now arguments.now) }
{
    let parameters = parameters_of(alloc, arguments)?;
    match list_fault(symbols, &parameters) {
        Some(refusal) if refusal.is(Refusal::BadForm) => Ok(bad(place)),
        _ => Ok(Shape::Wrong(Refusal::FunctionPlace, place)),
    }
}

/// `#'` of a leaf outside a function's seat.
fn named_outside(context: &Context, place: Place, leaf: Leaf) -> Shape
    ensures { (at : ℕ) → result ≡ Shapes.function_outside (scope_in context.now) place (Atom leaf at NoData) }
{
    match leaf {
        Leaf::Symbol(name) if has(context.functions, name) => {
            Shape::Wrong(Refusal::FunctionPlace, place)
        }
        Leaf::Symbol(_) => Shape::Wrong(Refusal::UnknownOperator, place),
        _ => bad(place),
    }
}

/// `#'` of these outside a function's seat.
pub fn function_outside(
    alloc: Global,
    context: &Context,
    place: Place,
    arguments: &Items,
) -> Result<Shape, Memory>
    ensures { IfOk result (λ shape. shape ≡ Shapes.function_outside (scope_in context.now) place arguments.now) }
{
    let Some((first, others)) = arguments.split_first() else {
        return Ok(bad(place));
    };
    if others.count() != 0 {
        return Ok(bad(place));
    }
    match first {
        First::Leaf(leaf, _) => Ok(named_outside(context, place, leaf)),
        First::List(at, under) => {
            if !is_named(context.symbols, "LAMBDA", first_symbol(&under)) {
                return Ok(bad(place));
            }
            lambda_outside(alloc, at, context.symbols, &under.skip(1))
        }
    }
}
