//! The least place of a form that is not run yet.
ghost use Rattle.std.specs.Prelude.{◌≡◌};
ghost use Rattle.lisp_program.specs.Forms.{forms_of};
ghost use Rattle.lisp_program.specs.Program.{program_of};
ghost use Rattle.form_compiler.specs.Refusals.{is_built as built_of, is_run as run_of, least as least_of, unbuilt_in as unbuilt_among, unbuilt_of};

use lisp_base::id::Place;
use lisp_program::form::{CoreKind, FormNode, Program};
use lisp_program::function::Primitive;

/// Whether a function with local points is run.
fn is_run(primitive: Primitive) -> bool
    ensures { result ≡ run_of primitive }
{
    match primitive {
        Primitive::MainThread | Primitive::ThreadYield => false,
        _ => true,
    }
}

/// Whether a kind of forms is run.
fn is_built(kind: CoreKind) -> bool
    ensures { result ≡ built_of kind }
{
    match kind {
        CoreKind::Apply(primitive) => is_run(primitive),
        CoreKind::Function(_) | CoreKind::CompareAndSwap(_) | CoreKind::Serve(_) => false,
        CoreKind::Block(_) | CoreKind::ReturnFrom(_) | CoreKind::Catch | CoreKind::Throw => false,
        CoreKind::UnwindProtect | CoreKind::HandlerCase | CoreKind::Signal(_) => false,
        CoreKind::Clause(_) | CoreKind::ClauseWith(_, _) => false,
        CoreKind::WithoutInterrupts(_) | CoreKind::AllowWithInterrupts(_) => false,
        CoreKind::WithInterrupts | CoreKind::WithDeadline { .. } => false,
        _ => true,
    }
}

/// The least of two places: of those that there are.
fn least(one: Option<Place>, other: Option<Place>) -> Option<Place>
    ensures { result ≡ least_of one other }
{
    match (one, other) {
        (Some(first), Some(second)) => Some(Place(first.0.min(second.0))),
        (Some(first), None) => Some(first),
        (None, second) => second,
    }
}

/// The least of a place, where there is one, and those of these forms that are not run.
fn unbuilt_in(nodes: &[FormNode], before: Option<Place>) -> Option<Place>
    ensures { result ≡ least_of before (unbuilt_among (forms_of nodes.now)) }
{
    let mut found = before;
    for node in nodes {
        if !is_built(node.kind) {
            found = least(found, Some(node.place));
        }
    }
    found
}

/// The least place of a form of a program that is not run, in main and in the bodies of functions.
pub(crate) fn unbuilt(program: &Program) -> Option<Place>
    ensures { result ≡ unbuilt_of (program_of program.now) }
{
    let mut found = unbuilt_in(program.main(), None);
    for function in program.functions() {
        found = unbuilt_in(function.body(), found);
    }
    found
}
