ghost use Rattle.std.specs.Prelude.{◌≡◌, IfOk};
ghost use Rattle.form_shapes.specs.Bindings.{opened as opened_of, received_by};
ghost use Rattle.form_shapes.specs.inside.Contexts.{scope_of, with_opened};
ghost use Rattle.form_shapes.specs.inside.One.{symbol_by as symbol_of};
ghost use Rattle.form_shapes.specs.Seats.{seated_of as seated_as, scope_within};
ghost use Rattle.form_shapes.specs.Scopes.{inside, leaf_form as leaf_form_of, target_in};
ghost use Rattle.form_shapes.specs.Shapes.{shape_of};

use crate::bindings::{open_parameter, opened, received};
use crate::expanded::Expanded;
use crate::led::shape_led;
use crate::levels::Level;
use crate::scope::{
    Opened, Target, Within, context_at, first_symbol, leaf_form, opened_in, opened_with,
    operator_at,
};
use crate::seat::{Seated, seated_of};
use crate::shape::Shape;
use crate::single::target_by;
use lisp_base::id::{Place, SymbolId};
use lisp_base::memory::Memory;
use lisp_data::datum::Leaf;
use lisp_data::items::{First, Items};

/// A leaf as a form, read by what all forms of the program are read by and by what is open round it, as in all functions below.
pub fn leaf_within(within: Within, leaf: Leaf) -> Expanded
    ensures { result ≡ leaf_form_of (scope_of within.entry) leaf }
{
    leaf_form(&context_at(within), leaf)
}

/// The shape of a list of these.
pub fn shape_within(within: Within, place: Place, under: &Items) -> Result<Shape, Memory>
    ensures { IfOk result (λ shape. shape ≡ shape_of (scope_of within.entry) place under.now) }
{
    let context = context_at(within);
    let operator = operator_at(&context, first_symbol(under));
    shape_led(within.alloc, &context, place, operator, under.skip(1))
}

/// What a list of these is in a function's seat.
pub fn seated_within(within: Within, place: Place, under: &Items) -> Result<Seated, Memory>
    ensures { IfOk result (λ seated. seated ≡ seated_as (scope_of within.entry) place under.now) }
{
    seated_of(within.alloc, &context_at(within), place, under)
}

/// The variable that a datum is.
pub fn target_within(within: Within, first: &First) -> Option<Target>
    ensures { result ≡ target_in (scope_of within.entry) (symbol_of first.now) }
{
    target_by(&context_at(within), first)
}

/// A copy of what is open.
pub fn open_within(within: Within) -> Result<Opened, Memory>
    ensures { IfOk result (λ opened. with_opened (scope_of within.entry) opened ≡ scope_of within.entry) }
{
    opened_in(within.alloc, &context_at(within))
}

/// What is open, with one more inside that can be named.
pub fn level_within(within: Within, level: Level) -> Result<Opened, Memory>
    ensures { IfOk result (λ opened. with_opened (scope_of within.entry) opened ≡ inside (scope_of within.entry) level) }
{
    opened_with(within.alloc, &context_at(within), level)
}

/// What is open after these variables of a `let`.
pub fn opened_within(within: Within, variables: &[SymbolId]) -> Result<Opened, Memory>
    ensures { IfOk result (λ o. with_opened (scope_of within.entry) o ≡ opened_of (scope_of within.entry) variables.now) }
{
    opened(within.alloc, &context_at(within), variables)
}

/// What is open after the variable of a clause.
pub fn clause_within(within: Within, variable: SymbolId) -> Result<Opened, Memory>
    ensures { IfOk result (λ o. with_opened (scope_of within.entry) o ≡ received_by (scope_of within.entry) variable) }
{
    let mut open = opened_in(within.alloc, &context_at(within))?;
    open_parameter(within.base.specials, variable, &mut open)?;
    Ok(open)
}

/// What is open after these parameters of a function, which sees nothing that is open round it.
pub fn received_within(within: Within, parameters: &[SymbolId]) -> Result<Opened, Memory>
    ensures { IfOk result (λ o. with_opened (scope_of within.entry) o ≡ scope_within (scope_of within.entry) parameters.now) }
{
    received(within.alloc, &context_at(within), parameters)
}
