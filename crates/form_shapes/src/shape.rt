ghost use Rattle.std.specs.Prelude.{◌≡◌};
ghost use Rattle.form_shapes.specs.Shapes;

use crate::expanded::Expanded;
use crate::keywords::Roles;
use crate::scope::Target;
use lisp_base::id::{Place, SymbolId};
use lisp_base::refusal::Refusal;
use lisp_data::items::Items;
use lisp_program::form::CoreKind;
use lisp_program::function::Primitive;

/// What a list is.
#[derive(Clone, Copy)]
pub enum Shape {
    /// A list that is refused for this reason at this place.
    Wrong(Refusal, Place),
    /// A form or a refusal under which nothing stands.
    Leaf(Expanded),
    /// A form of this kind with its arguments under it, by what they are for.
    Over(CoreKind, Roles),
    /// A form of this kind with its arguments and then NIL under it.
    OverNil(CoreKind, Roles),
    When,
    Unless,
    Cond,
    And,
    Or,
    Prog1,
    /// `setq` of one variable or more.
    Setq,
    /// `incf` or `decf` of this variable, by this function.
    Change(Target, Primitive),
    /// A function of two arguments that is folded over all of them.
    Fold(Primitive),
    /// A function of two arguments that takes its one argument twice.
    Twice(Primitive),
    Let,
    LetStar,
    /// A form of this kind with a body under it.
    Body(CoreKind),
    /// `with-local-interrupts`, in the `without-interrupts` with this number.
    LocalInterrupts(u32),
    /// `without-interrupts`.
    Without,
    /// A block with this name.
    Block(SymbolId),
    Catch,
    Loop,
    /// `dotimes` with this variable.
    Dotimes(SymbolId),
    IgnoreErrors,
    /// `handler-case`.
    Handler,
    /// `with-deadline`, with what is written.
    Deadline { seconds: bool, replaces: bool },
    /// `with-mutex`, with what is written.
    Mutex { waitp: bool, timeout: bool },
    /// `with-recursive-lock`.
    RecursiveLock,
    /// `with-timeout`.
    Timeout,
    /// `terminate-thread`.
    Terminate,
    /// A `defun` of this function, at top level.
    Defun(SymbolId),
}

/// A list that does not have its shape.
pub fn bad(place: Place) -> Shape
    ensures { result ≡ Shapes.bad place }
{
    Shape::Wrong(Refusal::BadForm, place)
}

/// A list that has this shape where the test holds, and otherwise does not have its shape.
pub fn where_holds(place: Place, holds: bool, shape: Shape) -> Shape
    ensures { result ≡ Shapes.where_holds place holds shape }
{
    if holds { shape } else { bad(place) }
}

/// A form of this kind with exactly so many arguments.
pub fn fixed(place: Place, kind: CoreKind, wanted: u32, arguments: &Items) -> Shape
    ensures { result ≡ Shapes.fixed place kind wanted arguments.now }
{
    where_holds(
        place,
        arguments.count() == wanted,
        Shape::Over(kind, Roles::From(0)),
    )
}

/// A form with at least so many arguments.
pub fn at_least(place: Place, wanted: u32, arguments: &Items, shape: Shape) -> Shape
    ensures { result ≡ Shapes.at_least place wanted arguments.now shape }
{
    where_holds(place, arguments.count() >= wanted, shape)
}

/// A list whose variables have this fault or none.
pub fn faultless(place: Place, fault: Option<Refusal>, shape: Shape) -> Shape
    ensures { result ≡ Shapes.faultless place fault shape }
{
    match fault {
        None => shape,
        Some(refusal) => Shape::Wrong(refusal, place),
    }
}
