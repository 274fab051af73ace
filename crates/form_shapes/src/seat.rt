ghost use Rattle.std.specs.Prelude.{◌≡◌, IfOk};
ghost use Rattle.form_shapes.specs.inside.Contexts.{scope_in};
ghost use Rattle.form_shapes.specs.Seats;

use crate::bindings::{list_fault, parameters_of};
use crate::expanded::Expanded;
use crate::led::shape_led;
use crate::operator::Operator;
use crate::scope::{Context, first_symbol, has, is_named, leaf_symbol, operator_at};
use crate::shape::Shape;
use lisp_base::id::{FunctionName, Place, SymbolId};
use lisp_base::memory::Memory;
use lisp_base::refusal::Refusal;
use lisp_data::items::{First, Items};
use lisp_program::form::CoreKind;
use std::alloc::Global;

/// What a list is in a function's seat.
#[derive(Clone, Copy)]
pub enum Seated {
    /// A `lambda`.
    Made,
    /// `#'` of a `lambda`, which stands for itself.
    Inner,
    /// A name of a function, or what is refused.
    Other(Expanded),
}

/// The refusal of a form that may not stand here, where this is what it would be refused for elsewhere at this place: that of the two
/// with the lesser number.
fn misplaced_refusal(refusal: Refusal) -> Refusal
    ensures { result ≡ Seats.misplaced_refusal refusal }
{
    if refusal.number() < Refusal::FunctionPlace.number() {
        refusal
    } else {
        Refusal::FunctionPlace
    }
}

/// The refusal of a form that may not stand here, by what would stand for it elsewhere.
pub fn misplaced_kind(kind: Expanded) -> Expanded
    ensures { result ≡ Seats.misplaced_kind kind }
{
    match kind {
        Expanded::Refused(refusal) | Expanded::RefusedFunction(refusal) => {
            Expanded::Refused(misplaced_refusal(refusal))
        }
        _ => Expanded::Refused(Refusal::FunctionPlace),
    }
}

/// The refusal of a list of this shape that may not stand here.
fn misplaced_shape(place: Place, shape: &Shape) -> Expanded
    ensures { result ≡ Seats.misplaced_shape place shape.now }
{
    match shape {
        Shape::Wrong(refusal, at) if at.0 == place.0 => {
            Expanded::Refused(misplaced_refusal(*refusal))
        }
        Shape::Leaf(kind) => misplaced_kind(*kind),
        _ => Expanded::Refused(Refusal::FunctionPlace),
    }
}

/// A `lambda` whose parameters have this fault or none.
fn lambda_seated(fault: Option<Refusal>) -> Seated
    ensures { result ≡ Seats.lambda_seated fault }
{
    match fault {
        None => Seated::Made,
        Some(refusal) if refusal.is(Refusal::DefinedTwice) => {
            Seated::Other(Expanded::RefusedFunction(Refusal::DefinedTwice))
        }
        Some(refusal) => Seated::Other(Expanded::Refused(refusal)),
    }
}

/// `#'` of what may be the name of a function.
fn name_seated(context: &Context, name: Option<SymbolId>) -> Seated
    ensures { result ≡ Seats.name_seated (scope_in context.now) name }
{
    let Some(name) = name else {
        return Seated::Other(Expanded::Refused(Refusal::BadForm));
    };
    if has(context.functions, name) {
        let function = CoreKind::Function(FunctionName::Named(name));
        return Seated::Other(Expanded::Form(function));
    }
    Seated::Other(Expanded::Refused(Refusal::UnknownOperator))
}

/// `#'` of these data: of a name, or of a `lambda`.
fn function_seated(context: &Context, arguments: &Items) -> Seated
    ensures { result ≡ Seats.function_seated (scope_in context.now) arguments.now }
{
    let Some((first, others)) = arguments.split_first() else {
        return Seated::Other(Expanded::Refused(Refusal::BadForm));
    };
    if others.count() != 0 {
        return Seated::Other(Expanded::Refused(Refusal::BadForm));
    }
    match first {
        First::Leaf(leaf, _) => name_seated(context, leaf_symbol(leaf)),
        First::List(_, under) => {
            if is_named(context.symbols, "LAMBDA", first_symbol(&under)) {
                Seated::Inner
            } else {
                Seated::Other(Expanded::Refused(Refusal::BadForm))
            }
        }
    }
}

/// What a list of these, which is at a place, is in a function's seat.
pub fn seated_of(
    alloc: Global,
    context: &Context,
    place: Place,
    under: &Items,
) -> Result<Seated, Memory>
    ensures { IfOk result (λ seated. seated ≡ Seats.seated_of (scope_in context.now) place under.now) }
{
    let operator = operator_at(context, first_symbol(under));
    match operator {
        Some(Operator::Lambda) => {
            let parameters = parameters_of(alloc, &under.skip(1))?;
            Ok(lambda_seated(list_fault(context.symbols, &parameters)))
        }
        Some(Operator::Function) => Ok(function_seated(context, &under.skip(1))),
        _ => match shape_led(alloc, context, place, operator, under.skip(1)) {
            Ok(shape) => Ok(Seated::Other(misplaced_shape(place, &shape))),
            Err(memory) => Err(memory),
        },
    }
}
