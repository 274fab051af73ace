ghost use Rattle.lisp_base.specs.Writing.{Wrote};
ghost use Rattle.form_shapes.specs.inside.Contexts.{scope_of};
ghost use Rattle.form_shapes.specs.inside.One.{let_variables};
ghost use Rattle.form_shapes.specs.Seats.{parameters_in as parameters_of, scope_within};
ghost use Rattle.lisp_forms.specs.Expansion.{by_roles, forms_in, function_body_in, listed, parts_in, seated as seated_in, seated_first};
ghost use Rattle.lisp_forms.specs.inside.Flat.{flat, flat_one};
ghost use Rattle.lisp_forms.specs.inside.Firsts.{first_form, first_seated};
ghost use Rattle.lisp_forms.specs.Rows.{lambda_form, list_form};
ghost use Rattle.lisp_forms.specs.Trees.{first as first_of, form};

use crate::nodes::{push_form, push_nil, push_node};
use crate::special::{push_specials, special_parts};
use crate::{bodies, lets, locks, loops, rows};
use form_shapes::bindings::{function_body_of, parameters_in};
use form_shapes::expanded::{Expanded, ExpandedNode};
use form_shapes::keywords::{Role, Roles, part_count, role_at};
use form_shapes::scope::Within;
use form_shapes::seat::{Seated, misplaced_kind};
use form_shapes::shape::Shape;
use form_shapes::single::rest;
use form_shapes::within::{leaf_within, received_within, seated_within, shape_within};
use lisp_base::id::Place;
use lisp_base::refusal::Refusal;
use lisp_base::writer::Writer;
use lisp_data::items::{First, Items};
use lisp_program::form::CoreKind;

/// Writes each of these as a form.
#[cycle(forms)]
pub fn push_all(within: Within, items: Items, nodes: &mut Writer<ExpandedNode>)
    ensures { Wrote nodes.old nodes.new (flat (forms_in (scope_of within.entry) items.entry)) }
{
    let mut left = items;
    while let Some((first, others)) = left.split_first() {
        push_first(within, first, nodes);
        left = others;
    }
}

/// Writes one as a form.
#[cycle(forms)]
pub fn push_first(within: Within, first: First, nodes: &mut Writer<ExpandedNode>)
    ensures { Wrote nodes.old nodes.new (flat_one (first_form (scope_of within.entry) first.entry)) }
{
    match first {
        First::Leaf(leaf, place) => push_node(leaf_within(within, leaf), place, 0, nodes),
        First::List(place, under) => push_list(within, place, under, nodes),
    }
}

/// Writes the first of these as a form, or NIL where there is none.
#[cycle(forms)]
pub fn push_head(within: Within, place: Place, items: Items, nodes: &mut Writer<ExpandedNode>)
    ensures { Wrote nodes.old nodes.new (flat_one (first_of place (forms_in (scope_of within.entry) items.entry))) }
{
    match items.split_first() {
        None => push_nil(place, nodes),
        Some((first, _)) => push_first(within, first, nodes),
    }
}

/// Writes the form of a list of these.
#[cycle(forms)]
fn push_list(within: Within, place: Place, under: Items, nodes: &mut Writer<ExpandedNode>)
    ensures { Wrote nodes.old nodes.new (flat_one (listed (scope_of within.entry) place under.entry)) }
{
    match shape_within(within, place, &under) {
        Ok(shape) => push_shaped(within, shape, place, rest(&under, 1), nodes),
        Err(_) => nodes.fill(),
    }
}

/// Writes the form of a list of this shape with these arguments.
#[cycle(forms)]
pub fn push_shaped(
    within: Within,
    shape: Shape,
    place: Place,
    arguments: Items,
    nodes: &mut Writer<ExpandedNode>,
)
    ensures { Wrote nodes.old nodes.new (flat_one (list_form (scope_of within.entry) place shape (let_variables arguments.entry) (parts_in (scope_of within.entry) place arguments.entry))) }
{
    match shape {
        Shape::Wrong(refusal, at) => push_node(Expanded::Refused(refusal), at, 0, nodes),
        Shape::Leaf(kind) => push_node(kind, place, 0, nodes),
        Shape::Over(kind, roles) => push_over(within, kind, roles, place, arguments, nodes),
        Shape::OverNil(kind, roles) => {
            rows::push_over_nil(within, kind, roles, place, arguments, nodes)
        }
        Shape::When => rows::push_when(within, place, arguments, nodes),
        Shape::Unless => rows::push_unless(within, place, arguments, nodes),
        Shape::Cond => rows::push_cond(within, place, arguments, nodes),
        Shape::And => rows::push_and(within, place, arguments, nodes),
        Shape::Or => rows::push_or(within, place, arguments, nodes),
        Shape::Prog1 => rows::push_prog1(within, place, arguments, nodes),
        Shape::Setq => rows::push_setq(within, place, arguments, nodes),
        Shape::Change(target, function) => {
            rows::push_change(within, target, function, place, arguments, nodes)
        }
        Shape::Fold(function) => { rows::push_fold(within, function, place, arguments, nodes) }
        Shape::Twice(function) => { rows::push_twice(within, function, place, arguments, nodes) }
        Shape::Let => lets::push_let(within, place, arguments, nodes),
        Shape::LetStar => lets::push_let_star(within, place, arguments, nodes),
        Shape::Body(kind) => bodies::push_body_form(within, kind, place, arguments, nodes),
        Shape::LocalInterrupts(number) => {
            bodies::push_local_interrupts(within, number, place, arguments, nodes)
        }
        Shape::Without => bodies::push_without(within, place, arguments, nodes),
        Shape::Block(name) => bodies::push_block(within, name, place, arguments, nodes),
        Shape::Catch => bodies::push_catch(within, place, arguments, nodes),
        Shape::Loop => loops::push_loop(within, place, arguments, nodes),
        Shape::Dotimes(variable) => {
            loops::push_dotimes(within, variable, place, arguments, nodes)
        }
        Shape::IgnoreErrors => rows::push_ignore(within, place, arguments, nodes),
        Shape::Handler => bodies::push_handler(within, place, arguments, nodes),
        Shape::Deadline { seconds, replaces } => bodies::push_deadline(
            within, seconds, replaces, place, arguments, nodes,
        ),
        Shape::Mutex { waitp, timeout } => {
            locks::push_mutex(within, waitp, timeout, place, arguments, nodes)
        }
        Shape::RecursiveLock => locks::push_lock(within, place, arguments, nodes),
        Shape::Timeout => locks::push_timeout(within, place, arguments, nodes),
        Shape::Terminate => rows::push_terminate(within, place, arguments, nodes),
        Shape::Defun(_) => push_node(Expanded::Refused(Refusal::BadForm), place, 0, nodes),
    }
}

/// Writes a form of this kind with these under it, by what they are for.
#[cycle(forms)]
fn push_over(
    within: Within,
    kind: CoreKind,
    roles: Roles,
    place: Place,
    arguments: Items,
    nodes: &mut Writer<ExpandedNode>,
)
    ensures { Wrote nodes.old nodes.new (flat_one (form kind place (by_roles (scope_of within.entry) roles 0 arguments.entry))) }
{
    let parts = part_count(roles, arguments.count());
    push_form(kind, place, parts, nodes);
    push_by_roles(within, roles, arguments, nodes)
}

/// Writes each of these by what it is for.
#[cycle(forms)]
pub fn push_by_roles(within: Within, roles: Roles, items: Items, nodes: &mut Writer<ExpandedNode>)
    ensures { Wrote nodes.old nodes.new (flat (by_roles (scope_of within.entry) roles 0 items.entry)) }
{
    let mut index = 0;
    let mut left = items;
    while let Some((first, others)) = left.split_first() {
        match role_at(roles, index) {
            Role::Value => push_first(within, first, nodes),
            Role::Seat => push_seated(within, first, nodes),
            Role::Skipped => (),
        }
        index += 1;
        left = others;
    }
}

/// Writes one that stands in a function's seat.
#[cycle(forms)]
fn push_seated(within: Within, first: First, nodes: &mut Writer<ExpandedNode>)
    ensures { Wrote nodes.old nodes.new (flat_one (first_seated (scope_of within.entry) first.entry)) }
{
    match first {
        First::Leaf(leaf, place) => {
            push_node(misplaced_kind(leaf_within(within, leaf)), place, 0, nodes)
        }
        First::List(place, under) => push_seated_list(within, place, under, nodes),
    }
}

/// Writes a list of these that stands in a function's seat.
#[cycle(forms)]
fn push_seated_list(within: Within, place: Place, under: Items, nodes: &mut Writer<ExpandedNode>)
    ensures { Wrote nodes.old nodes.new (flat_one (seated_in (scope_of within.entry) place under.entry)) }
{
    let arguments = rest(&under, 1);
    match seated_within(within, place, &under) {
        Ok(Seated::Made) => push_lambda(within, place, arguments, nodes),
        Ok(Seated::Inner) => push_inner(within, arguments, nodes),
        Ok(Seated::Other(kind)) => push_node(kind, place, 0, nodes),
        Err(_) => nodes.fill(),
    }
}

/// Writes the list that is the first of these, which stands in a function's seat.
#[cycle(forms)]
fn push_inner(within: Within, arguments: Items, nodes: &mut Writer<ExpandedNode>)
    ensures { Wrote nodes.old nodes.new (flat_one (seated_first (scope_of within.entry) arguments.entry)) }
{
    let Some((first, _)) = arguments.split_first() else {
        return push_node(Expanded::Refused(Refusal::BadForm), Place(0), 0, nodes);
    };
    match first {
        First::Leaf(_, _) => push_node(Expanded::Refused(Refusal::BadForm), Place(0), 0, nodes),
        First::List(place, under) => push_seated_list(within, place, under, nodes),
    }
}

/// Writes a `lambda` with these arguments.
#[cycle(forms)]
fn push_lambda(within: Within, place: Place, arguments: Items, nodes: &mut Writer<ExpandedNode>)
    ensures { Wrote nodes.old nodes.new (flat_one (lambda_form (scope_of within.entry) place (parameters_of arguments.entry) (function_body_in (scope_within (scope_of within.entry) (parameters_of arguments.entry)) 1 arguments.entry))) }
{
    let Ok(parameters) = parameters_in(within.alloc, &arguments) else {
        return nodes.fill();
    };
    let Ok(open) = received_within(within, parameters.as_slice()) else {
        return nodes.fill();
    };
    let body = function_body_of(within.base.symbols, rest(&arguments, 1));
    let count = open.depth;
    let parts = special_parts(within.base.specials, parameters.as_slice(), body.count());
    push_node(Expanded::Lambda(count), place, parts, nodes);
    push_specials(
        within.base.specials,
        place,
        parameters.as_slice(),
        body.count(),
        nodes,
    );
    let inner = Within {
        levels: &open.levels,
        depth: open.depth,
        ..within
    };
    push_all(inner, body, nodes)
}
