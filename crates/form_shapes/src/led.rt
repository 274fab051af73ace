ghost use Rattle.std.specs.Prelude.{◌≡◌, IfOk};
ghost use Rattle.form_shapes.specs.inside.Contexts.{scope_in};
ghost use Rattle.form_shapes.specs.Shapes;

use crate::bindings::{list_fault, variables_of};
use crate::call_shapes::{call_shape, error_shape, fold_shape, format_shape, serve_shape};
use crate::clause::are_tests;
use crate::control_shapes::{
    allow_shape, block_shape, deadline_shape, dotimes_shape, function_outside, handler_shape,
    lambda_outside, local_shape, lock_shape, mutex_shape, return_from_shape, return_shape,
};
use crate::expanded::Expanded;
use crate::keywords::Roles;
use crate::operator::Operator;
use crate::scope::Context;
use crate::shape::{Shape, at_least, bad, faultless, fixed, where_holds};
use crate::value_shapes::{change_shape, if_shape, quoted, setq_shape, swap_shape};
use lisp_base::id::Place;
use lisp_base::memory::Memory;
use lisp_base::refusal::Refusal;
use lisp_data::items::Items;
use lisp_program::form::CoreKind;
use lisp_program::function::Primitive;
use std::alloc::Global;

/// `let` or `let*` with these arguments.
fn let_shape(
    alloc: Global,
    context: &Context,
    place: Place,
    arguments: &Items,
    shape: Shape,
) -> Result<Shape, Memory>
    ensures { IfOk result (λ answer. answer ≡ Shapes.let_shape (scope_in context.now) place arguments.now shape) }
{
    let variables = variables_of(alloc, arguments)?;
    Ok(faultless(place, list_fault(context.symbols, &variables), shape))
}

/// An `unwind-protect`.
fn protecting() -> Shape
    ensures { result ≡ Shape.Over CoreKind.UnwindProtect (Roles.From 0) }
{
    Shape::Over(CoreKind::UnwindProtect, Roles::From(0))
}

/// An `abort-thread`.
fn aborting() -> Shape
    ensures { result ≡ Shape.Leaf (Expanded.Form CoreKind.AbortThread) }
{
    Shape::Leaf(Expanded::Form(CoreKind::AbortThread))
}

/// What a list with this operator and these arguments is: a line for each operator.
fn operator_led(
    alloc: Global,
    context: &Context,
    place: Place,
    operator: Operator,
    arguments: Items,
) -> Result<Shape, Memory>
    ensures { IfOk result (λ shape. shape ≡ Shapes.operator_led (scope_in context.now) place operator arguments.entry) }
{
    let symbols = context.symbols;
    let shape = match operator {
        Operator::Quote => Shape::Leaf(quoted(&arguments)),
        Operator::Function => function_outside(alloc, context, place, &arguments)?,
        Operator::Lambda => lambda_outside(alloc, place, symbols, &arguments)?,
        Operator::Progn => Shape::Over(CoreKind::Progn, Roles::From(0)),
        Operator::If => if_shape(place, &arguments),
        Operator::Let => let_shape(alloc, context, place, &arguments, Shape::Let)?,
        Operator::LetStar => let_shape(alloc, context, place, &arguments, Shape::LetStar)?,
        Operator::Setq => setq_shape(symbols, place, arguments),
        Operator::CompareAndSwap => swap_shape(context, place, &arguments),
        Operator::When => at_least(place, 1, &arguments, Shape::When),
        Operator::Unless => at_least(place, 1, &arguments, Shape::Unless),
        Operator::Cond => where_holds(place, are_tests(arguments), Shape::Cond),
        Operator::And => Shape::And,
        Operator::Or => Shape::Or,
        Operator::Prog1 => at_least(place, 1, &arguments, Shape::Prog1),
        Operator::Incf => change_shape(context, place, Primitive::Add, &arguments),
        Operator::Decf => change_shape(context, place, Primitive::Subtract, &arguments),
        Operator::Loop => Shape::Loop,
        Operator::Dotimes => dotimes_shape(symbols, place, &arguments),
        Operator::Block => block_shape(place, &arguments),
        Operator::ReturnFrom => return_from_shape(context, place, &arguments),
        Operator::Return => return_shape(context, place, &arguments),
        Operator::Catch => at_least(place, 1, &arguments, Shape::Catch),
        Operator::Throw => fixed(place, CoreKind::Throw, 2, &arguments),
        Operator::UnwindProtect => at_least(place, 1, &arguments, protecting()),
        Operator::HandlerCase => handler_shape(symbols, place, &arguments),
        Operator::IgnoreErrors => Shape::IgnoreErrors,
        Operator::Error => error_shape(context, place, &arguments),
        Operator::WithoutInterrupts => Shape::Without,
        Operator::AllowWithInterrupts => allow_shape(context, place),
        Operator::WithInterrupts => Shape::Body(CoreKind::WithInterrupts),
        Operator::WithLocalInterrupts => local_shape(context, place),
        Operator::WithDeadline => deadline_shape(symbols, place, &arguments),
        Operator::WithTimeout => at_least(place, 1, &arguments, Shape::Timeout),
        Operator::WithMutex => mutex_shape(symbols, place, &arguments),
        Operator::WithRecursiveLock => lock_shape(place, &arguments),
        Operator::AbortThread => where_holds(place, arguments.count() == 0, aborting()),
        Operator::ReturnFromThread => fixed(place, CoreKind::ReturnFromThread, 1, &arguments),
        Operator::TerminateThread => where_holds(place, arguments.count() == 1, Shape::Terminate),
        Operator::Fold(function) => fold_shape(place, function, &arguments),
        Operator::Apply(function, count) => {
            fixed(place, CoreKind::Apply(function), count, &arguments)
        }
        Operator::Print(printing, count) => {
            fixed(place, CoreKind::Print(printing), count, &arguments)
        }
        Operator::Format => format_shape(context, place, &arguments),
        Operator::Serve(service) => serve_shape(symbols, place, service, &arguments),
        Operator::Own(name) => call_shape(place, name, &arguments),
        Operator::Defvar
        | Operator::Defparameter
        | Operator::Defun
        | Operator::Ignored
        | Operator::Declare => bad(place),
    };
    Ok(shape)
}

/// What a list with this operator, if there is one, and these arguments is.
pub fn shape_led(
    alloc: Global,
    context: &Context,
    place: Place,
    operator: Option<Operator>,
    arguments: Items,
) -> Result<Shape, Memory>
    ensures { IfOk result (λ shape. shape ≡ Shapes.shape_led (scope_in context.now) place operator arguments.entry) }
{
    match operator {
        None => Ok(Shape::Wrong(Refusal::UnknownOperator, place)),
        Some(operator) => operator_led(alloc, context, place, operator, arguments),
    }
}
