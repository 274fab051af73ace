ghost use Rattle.std.specs.Prelude.{◌≡◌, Some, None, IfOk};
ghost use Rattle.std.specs.Result.{IfErr};
ghost use Rattle.lisp_program.specs.Forms.{forms_of as core_forms_of};
ghost use Rattle.plain_program.specs.Forms.{forms_of};
ghost use Rattle.plain_program.specs.Plain.{first_unbuilt as first_unbuilt_in, least as least_of, place_without, plain_forms, plain_kind as plain_kind_of, plain_primitive as primitive_of, plain_printing as printing_of};

use crate::form::{PlainKind, PlainNode};
use lisp_base::id::Place;
use lisp_base::memory::Memory;
use lisp_program::form::{CoreKind, FormNode};
use lisp_program::function::{Primitive, Printing};
use std::alloc::Global;

/// The plain kind that a function with local points is: `None` where it is not run yet.
fn plain_primitive(primitive: Primitive) -> Option<PlainKind>
    ensures { result ≡ primitive_of primitive }
{
    match primitive {
        Primitive::Add => Some(PlainKind::Plus),
        _ => None,
    }
}

/// The plain kind that a function that prints is: `None` where it is not run yet.
fn plain_printing(printing: Printing) -> Option<PlainKind>
    ensures { result ≡ printing_of printing }
{
    match printing {
        Printing::Print => Some(PlainKind::Print),
        _ => None,
    }
}

/// The plain kind that a core kind is: `None` where it is not run yet.
fn plain_kind(kind: CoreKind) -> Option<PlainKind>
    ensures { result ≡ plain_kind_of kind }
{
    match kind {
        CoreKind::Constant(value) => Some(PlainKind::Constant(value)),
        CoreKind::Apply(primitive) => plain_primitive(primitive),
        CoreKind::Print(printing) => plain_printing(printing),
        CoreKind::Progn => Some(PlainKind::Progn),
        CoreKind::Special(symbol) => Some(PlainKind::Special(symbol)),
        CoreKind::SetSpecial(symbol) => Some(PlainKind::Setq(symbol)),
        CoreKind::Defvar(symbol) => Some(PlainKind::Defvar(symbol)),
        CoreKind::Let => Some(PlainKind::Let),
        CoreKind::BindSpecial(symbol, above) => Some(PlainKind::Bind(symbol, above)),
        _ => None,
    }
}

/// The least of two places: of those that there are.
fn least(one: Option<Place>, other: Option<Place>) -> Option<Place>
    ensures { result ≡ least_of one other }
{
    match (one, other) {
        (Some(first), Some(second)) => Some(Place(first.0.min(second.0))),
        (Some(first), None) => Some(first),
        (None, second) => second,
    }
}

/// Forms as plain forms, or the least place of a form whose kind is not run yet.
pub fn plain_nodes(
    alloc: Global,
    main: &[FormNode],
) -> Result<Result<Vec<PlainNode>, Place>, Memory>
    ensures plain { IfOk result (λ plain. IfOk plain (λ nodes. (first_unbuilt_in (core_forms_of main.now) ≡ None) × (forms_of nodes.items ≡ plain_forms (core_forms_of main.now)))) }
    ensures unbuilt { IfOk result (λ plain. IfErr plain (λ place. first_unbuilt_in (core_forms_of main.now) ≡ Some place)) }
{
    let mut nodes = Vec::new(alloc);
    let mut found = None;
    for node in main {
        match plain_kind(node.kind) {
            None => found = least(found, Some(node.place)),
            Some(kind) => {
                if found.is_none() {
                    nodes.push(PlainNode {
                        kind,
                        place: node.place,
                        parts: node.parts,
                    })?;
                }
            }
        }
    }
    match found {
        Some(place) => Ok(Err(place)),
        None => Ok(Ok(nodes)),
    }
}
