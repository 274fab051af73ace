ghost use Rattle.std.specs.Prelude.{◌≡◌, ℕ, ◌<◌, ◌^◌, Some};
ghost use Rattle.lisp_base.specs.Forest.{count_of, append};
ghost use Rattle.lisp_base.specs.Writing.{Wrote};
ghost use Rattle.form_shapes.specs.inside.Contexts.{scope_of};
ghost use Rattle.form_shapes.specs.Scopes.{Scope, inside as inside_of};
ghost use Rattle.form_shapes.specs.Bindings.{received_by};
ghost use Rattle.lisp_forms.specs.Expansion.{body_in, clause_in, clauses_behind, clauses_in, forms_in, parts_in, within_first};
ghost use Rattle.lisp_forms.specs.inside.Flat.{flat, flat_one};
ghost use Rattle.lisp_forms.specs.Rows;
ghost use Rattle.lisp_forms.specs.Trees.{first as first_of, form, in_front};
ghost use Rattle.lisp_forms.specs.inside.Written.{one_list};

use crate::expand::{push_all, push_by_roles, push_head};
use crate::nodes::{push_form, push_local, push_nil};
use form_shapes::bindings::{after_declarations, items_first};
use form_shapes::clause::{class_of, clause_variable};
use form_shapes::expanded::ExpandedNode;
use form_shapes::keywords::{Roles, part_count};
use form_shapes::levels::Level;
use form_shapes::scope::{Within, has};
use form_shapes::single::{is_list, rest, symbol_by};
use form_shapes::within::{clause_within, level_within};
use lisp_base::condition::Class;
use lisp_base::id::{Place, SymbolId};
use lisp_base::writer::Writer;
use lisp_data::items::{First, Items};
use lisp_program::form::CoreKind;

/// Writes a form of this kind with a body under it.
#[cycle(forms)]
pub fn push_body_form(
    within: Within,
    kind: CoreKind,
    place: Place,
    arguments: Items,
    nodes: &mut Writer<ExpandedNode>,
)
    ensures { Wrote nodes.old nodes.new (flat_one (form kind place (body_in (scope_of within.entry) 0 arguments.entry))) }
{
    let body = after_declarations(within.base.symbols, arguments);
    push_form(kind, place, body.count(), nodes);
    push_all(within, body, nodes)
}

/// Writes a `with-local-interrupts` with these arguments, in the `without-interrupts` with this number.
#[cycle(forms)]
pub fn push_local_interrupts(
    within: Within,
    number: u32,
    place: Place,
    arguments: Items,
    nodes: &mut Writer<ExpandedNode>,
)
    ensures { Wrote nodes.old nodes.new (flat_one (Rows.local_interrupts_form (scope_of within.entry) place number (parts_in (scope_of within.entry) place arguments.entry))) }
{
    push_form(CoreKind::AllowWithInterrupts(number), place, 1, nodes);
    push_body_form(within, CoreKind::WithInterrupts, place, arguments, nodes)
}

/// Writes a `without-interrupts` with these arguments.
#[cycle(forms)]
pub fn push_without(
    within: Within,
    place: Place,
    arguments: Items,
    nodes: &mut Writer<ExpandedNode>,
)
    ensures { Wrote nodes.old nodes.new (flat_one (form (CoreKind.WithoutInterrupts (scope_of within.entry).depth) place (body_in (inside_of (scope_of within.entry) Level.Region) 0 arguments.entry))) }
{
    let Ok(open) = level_within(within, Level::Region) else {
        return nodes.fill();
    };
    let kind = CoreKind::WithoutInterrupts(within.depth);
    let inner = Within {
        levels: &open.levels,
        depth: open.depth,
        ..within
    };
    push_body_form(inner, kind, place, arguments, nodes)
}

/// Writes a `block` of this name with these arguments.
#[cycle(forms)]
pub fn push_block(
    within: Within,
    name: SymbolId,
    place: Place,
    arguments: Items,
    nodes: &mut Writer<ExpandedNode>,
)
    ensures { Wrote nodes.old nodes.new (flat_one (form (CoreKind.Block (scope_of within.entry).depth) place (body_in (inside_of (scope_of within.entry) (Level.Block name)) 1 arguments.entry))) }
{
    let Ok(open) = level_within(within, Level::Block(name)) else {
        return nodes.fill();
    };
    let kind = CoreKind::Block(within.depth);
    let inner = Within {
        levels: &open.levels,
        depth: open.depth,
        ..within
    };
    push_body_form(inner, kind, place, rest(&arguments, 1), nodes)
}

/// Writes a `catch` with these arguments.
#[cycle(forms)]
pub fn push_catch(within: Within, place: Place, arguments: Items, nodes: &mut Writer<ExpandedNode>)
    ensures { Wrote nodes.old nodes.new (flat_one (form CoreKind.Catch place (in_front (first_of place (forms_in (scope_of within.entry) arguments.entry)) (body_in (scope_of within.entry) 1 arguments.entry)))) }
{
    let body = after_declarations(within.base.symbols, rest(&arguments, 1));
    push_form(CoreKind::Catch, place, body.count() + 1, nodes);
    push_head(within, place, arguments, nodes);
    push_all(within, body, nodes)
}

/// Writes a `with-deadline` with these arguments, of which these are written.
#[cycle(forms)]
pub fn push_deadline(
    within: Within,
    seconds: bool,
    replaces: bool,
    place: Place,
    arguments: Items,
    nodes: &mut Writer<ExpandedNode>,
)
    ensures { Wrote nodes.old nodes.new (flat_one (form (CoreKind.WithDeadline seconds replaces) place (append (within_first (scope_of within.entry) (Roles.Values 0) arguments.entry) (body_in (scope_of within.entry) 1 arguments.entry)))) }
{
    let items = items_first(&arguments);
    let body = after_declarations(within.base.symbols, rest(&arguments, 1));
    let parts = part_count(Roles::Values(0), items.count()) + body.count();
    let kind = CoreKind::WithDeadline { seconds, replaces };
    push_form(kind, place, parts, nodes);
    push_by_roles(within, Roles::Values(0), items, nodes);
    push_all(within, body, nodes)
}

/// Writes a `handler-case` with these arguments.
#[cycle(forms)]
pub fn push_handler(
    within: Within,
    place: Place,
    arguments: Items,
    nodes: &mut Writer<ExpandedNode>,
)
    ensures { Wrote nodes.old nodes.new (flat_one (form CoreKind.HandlerCase place (in_front (first_of place (forms_in (scope_of within.entry) arguments.entry)) (clauses_behind (scope_of within.entry) place arguments.entry)))) }
{
    let clauses = rest(&arguments, 1);
    let count = count_clauses(&clauses);
    push_form(CoreKind::HandlerCase, place, count + 1, nodes);
    push_head(within, place, arguments, nodes);
    push_clauses(within, place, clauses, nodes)
}

/// How many of these are lists.
fn count_clauses(clauses: &Items) -> u32
    ensures is { (s : Scope) (place : ℕ) → result ≡ count_of (clauses_in s place clauses.now) }
    ensures few { result < 2 ^ 30 }
{
    let mut count = 0;
    let mut left = clauses.skip(0);
    while let Some((first, others)) = left.split_first() {
        count += one_list(&first);
        left = others;
    }
    count
}

/// One for a list, and none for another.
fn one_list(first: &First) -> u32
    ensures { result ≡ one_list first.now }
{
    match first {
        First::Leaf(_, _) => 0,
        First::List(_, _) => 1,
    }
}

/// Writes these clauses of a `handler-case`.
#[cycle(forms)]
fn push_clauses(within: Within, place: Place, clauses: Items, nodes: &mut Writer<ExpandedNode>)
    ensures { Wrote nodes.old nodes.new (flat (clauses_in (scope_of within.entry) place clauses.entry)) }
{
    let mut left = clauses;
    while let Some((first, others)) = left.split_first() {
        match first {
            First::Leaf(_, _) => (),
            First::List(_, under) => push_clause(within, place, under, nodes),
        }
        left = others;
    }
}

/// Writes a clause of a `handler-case` with these.
#[cycle(forms)]
fn push_clause(within: Within, place: Place, under: Items, nodes: &mut Writer<ExpandedNode>)
    ensures { Wrote nodes.old nodes.new (flat_one (clause_in (scope_of within.entry) place under.entry)) }
{
    let Some((first, others)) = under.split_first() else {
        return push_nil(place, nodes);
    };
    if is_list(&first) {
        return push_nil(place, nodes);
    }
    let class = class_of(within.base.symbols, symbol_by(&first)).unwrap_or(Class::Condition);
    let body = after_declarations(within.base.symbols, rest(&others, 1));
    match clause_variable(&others) {
        None => {
            push_form(CoreKind::Clause(class), place, body.count(), nodes);
            push_all(within, body, nodes)
        }
        Some(variable) => push_bound_clause(within, class, variable, place, body, nodes),
    }
}

/// Writes a clause of this class with this variable and this body.
#[cycle(forms)]
fn push_bound_clause(
    within: Within,
    class: Class,
    variable: SymbolId,
    place: Place,
    body: Items,
    nodes: &mut Writer<ExpandedNode>,
)
    ensures { Wrote nodes.old nodes.new (flat_one (Rows.clause_form (scope_of within.entry) (scope_of within.entry).depth place class (Some variable) (forms_in (received_by (scope_of within.entry) variable) body.entry))) }
{
    let number = within.depth;
    let Ok(open) = clause_within(within, variable) else {
        return nodes.fill();
    };
    if has(within.base.specials, variable) {
        push_form(CoreKind::ClauseWith(class, number), place, 1, nodes);
        push_form(CoreKind::Let, place, 2, nodes);
        push_local(number, place, nodes);
        push_form(
            CoreKind::BindSpecial(variable, 0),
            place,
            body.count(),
            nodes,
        );
    } else {
        push_form(
            CoreKind::ClauseWith(class, number),
            place,
            body.count(),
            nodes,
        );
    }
    let inner = Within {
        levels: &open.levels,
        depth: open.depth,
        ..within
    };
    push_all(inner, body, nodes)
}
