ghost use Rattle.std.specs.Prelude.{◌≡◌};
ghost use Rattle.form_shapes.specs.inside.Contexts.{scope_in};
ghost use Rattle.form_shapes.specs.Shapes;

use crate::bindings::MOST;
use crate::control::{has_tilde, taken_by, text_of};
use crate::expanded::Expanded;
use crate::keywords::{Roles, first_key, keys_in, positional, roles_of, second_key, with_keys};
use crate::scope::{Context, constant, is_named};
use crate::shape::{Shape, bad, fixed};
use lisp_base::condition::{Class, Condition};
use lisp_base::id::{Place, StringId, SymbolId};
use lisp_base::refusal::Refusal;
use lisp_base::value::Node;
use lisp_data::datum::Leaf;
use lisp_data::items::{First, Items};
use lisp_program::form::CoreKind;
use lisp_program::function::{Primitive, Printing, Service};
use symbol_table::symbols::Symbols;

/// What a fold of no arguments gives.
fn fold_of_none(place: Place, function: Primitive) -> Shape
    ensures { result ≡ Shapes.fold_of_none place function }
{
    match function {
        Primitive::Add => Shape::Leaf(constant(Node::Int(0))),
        Primitive::Multiply => Shape::Leaf(constant(Node::Int(1))),
        _ => bad(place),
    }
}

/// A fold of one argument.
fn fold_of_one(function: Primitive) -> Shape
    ensures { result ≡ Shapes.fold_of_one function }
{
    match function {
        Primitive::Max | Primitive::Min => Shape::Twice(function),
        _ => Shape::Fold(function),
    }
}

/// A function that is folded over these arguments.
pub fn fold_shape(place: Place, function: Primitive, arguments: &Items) -> Shape
    ensures { result ≡ Shapes.fold_shape place function arguments.now }
{
    let count = arguments.count();
    if count == 0 {
        return fold_of_none(place, function);
    }
    if count > MOST {
        return Shape::Wrong(Refusal::TooMany, place);
    }
    if count == 1 {
        return fold_of_one(function);
    }
    Shape::Fold(function)
}

/// A call of a function of the program.
pub fn call_shape(place: Place, name: SymbolId, arguments: &Items) -> Shape
    ensures { result ≡ Shapes.call_shape place name arguments.now }
{
    if arguments.count() > MOST {
        return Shape::Wrong(Refusal::TooMany, place);
    }
    Shape::Over(CoreKind::Call(name), Roles::From(0))
}

/// A service with these arguments, of which the first are positional and the others keywords with values.
fn keyed_shape(symbols: &Symbols, place: Place, service: Service, arguments: &Items) -> Shape
    ensures { result ≡ Shapes.keyed_shape symbols.now place service arguments.now }
{
    let own = positional(service);
    if arguments.count() < own {
        return bad(place);
    }
    let first = first_key(service);
    let second = second_key(service);
    match keys_in(symbols, first, second, arguments.skip(own)) {
        None => bad(place),
        Some(keys) => Shape::Over(
            CoreKind::Serve(with_keys(service, keys.first, keys.second)),
            roles_of(service),
        ),
    }
}

/// `condition-notify`, with or without the number of waiters.
fn notify_shape(place: Place, arguments: &Items) -> Shape
    ensures { result ≡ Shapes.notify_shape place arguments.now }
{
    if arguments.count() == 2 {
        let service = Service::ConditionNotify { count: true };
        return Shape::Over(CoreKind::Serve(service), Roles::From(0));
    }
    let service = Service::ConditionNotify { count: false };
    fixed(place, CoreKind::Serve(service), 1, arguments)
}

/// A service with these arguments.
pub fn serve_shape(symbols: &Symbols, place: Place, service: Service, arguments: &Items) -> Shape
    ensures { result ≡ Shapes.serve_shape symbols.now place service arguments.now }
{
    match service {
        Service::ConditionNotify { .. } => notify_shape(place, arguments),
        _ => keyed_shape(symbols, place, service, arguments),
    }
}

/// `error` with these arguments.
pub fn error_shape(context: &Context, place: Place, arguments: &Items) -> Shape
    ensures { result ≡ Shapes.error_shape (scope_in context.now) place arguments.now }
{
    let Some((first, others)) = arguments.split_first() else {
        return bad(place);
    };
    let First::Leaf(leaf, _) = first else {
        return bad(place);
    };
    let Leaf::Text(text) = leaf else {
        return bad(place);
    };
    if others.count() != 0 || has_tilde(text_of(context.texts, text)) {
        return bad(place);
    }
    Shape::Leaf(Expanded::Form(CoreKind::Signal(Condition {
        class: Class::SimpleError,
        text: Some(text),
    })))
}

/// `format` of this control, which takes so many arguments, with so many given.
fn format_given(place: Place, control: StringId, taken: usize, given: u32) -> Shape
    ensures { result ≡ Shapes.format_given place control taken given }
{
    if (given as usize) < taken {
        return bad(place);
    }
    if given > MOST {
        return Shape::Wrong(Refusal::TooMany, place);
    }
    Shape::Over(
        CoreKind::Print(Printing::Format(control, given)),
        Roles::From(2),
    )
}

/// `format` with these arguments.
pub fn format_shape(context: &Context, place: Place, arguments: &Items) -> Shape
    ensures { result ≡ Shapes.format_shape (scope_in context.now) place arguments.now }
{
    let Some((first, others)) = arguments.split_first() else {
        return bad(place);
    };
    let First::Leaf(leaf, _) = first else {
        return bad(place);
    };
    let Leaf::Symbol(symbol) = leaf else {
        return bad(place);
    };
    let Some((first, others)) = others.split_first() else {
        return bad(place);
    };
    let First::Leaf(leaf, _) = first else {
        return bad(place);
    };
    let Leaf::Text(control) = leaf else {
        return bad(place);
    };
    if !is_named(context.symbols, "T", Some(symbol)) {
        return bad(place);
    }
    match taken_by(text_of(context.texts, control)) {
        None => bad(place),
        Some(taken) => format_given(place, control, taken, others.count()),
    }
}
