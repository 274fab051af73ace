ghost use Rattle.std.specs.Prelude.{◌≡◌, ℕ};
ghost use Rattle.lisp_base.specs.Forest.{count_of};
ghost use Rattle.lisp_base.specs.Writing.{Wrote};
ghost use Rattle.form_shapes.specs.inside.Contexts.{scope_of};
ghost use Rattle.form_shapes.specs.inside.One.{place_by as place_of, symbol_by as symbol_of};
ghost use Rattle.form_shapes.specs.Scopes.{Scope, target_in};
ghost use Rattle.lisp_forms.specs.Expansion.{conds_in, forms_in, ors_in, pairs_in, parts_in};
ghost use Rattle.lisp_forms.specs.inside.Flat.{flat, flat_one};
ghost use Rattle.lisp_forms.specs.inside.Written.{clause_nodes, either_nodes};
ghost use Rattle.lisp_forms.specs.inside.Firsts.{first_form};
ghost use Rattle.lisp_forms.specs.Rows;
ghost use Rattle.lisp_forms.specs.Trees.{progn_form};

use crate::expand::{push_all, push_by_roles, push_first, push_head};
use crate::nodes::{
    push_form, push_forms, push_local, push_nil, push_node, push_number, push_true, unit_of,
};
use form_shapes::bindings::after_declarations;
use form_shapes::expanded::{Expanded, ExpandedNode};
use form_shapes::keywords::{Roles, part_count};
use form_shapes::levels::next;
use form_shapes::scope::{Target, Within, set_kind};
use form_shapes::single::{is_list, place_by, rest};
use form_shapes::within::target_within;
use lisp_base::condition::Class;
use lisp_base::id::{FunctionName, Place};
use lisp_base::refusal::Refusal;
use lisp_base::value::Value;
use lisp_base::writer::Writer;
use lisp_data::items::{First, Items};
use lisp_program::form::CoreKind;
use lisp_program::function::{Primitive, Service};

/// Writes a form of this kind with these under it, by what they are for, and NIL after them.
#[cycle(forms)]
pub fn push_over_nil(
    within: Within,
    kind: CoreKind,
    roles: Roles,
    place: Place,
    arguments: Items,
    nodes: &mut Writer<ExpandedNode>,
)
    ensures { Wrote nodes.old nodes.new (flat_one (Rows.over_nil_form (scope_of within.entry) place kind roles (parts_in (scope_of within.entry) place arguments.entry))) }
{
    let parts = part_count(roles, arguments.count()) + 1;
    push_form(kind, place, parts, nodes);
    push_by_roles(within, roles, arguments, nodes);
    push_nil(place, nodes)
}

/// Writes these as one form.
#[cycle(forms)]
pub fn push_progn(within: Within, place: Place, items: Items, nodes: &mut Writer<ExpandedNode>)
    ensures { Wrote nodes.old nodes.new (flat_one (progn_form place (forms_in (scope_of within.entry) items.entry))) }
{
    push_form(CoreKind::Progn, place, items.count(), nodes);
    push_all(within, items, nodes)
}

/// Writes a `when` with these arguments.
#[cycle(forms)]
pub fn push_when(within: Within, place: Place, arguments: Items, nodes: &mut Writer<ExpandedNode>)
    ensures { Wrote nodes.old nodes.new (flat_one (Rows.when_form (scope_of within.entry) place (parts_in (scope_of within.entry) place arguments.entry))) }
{
    let body = rest(&arguments, 1);
    push_form(CoreKind::If, place, 3, nodes);
    push_head(within, place, arguments, nodes);
    push_progn(within, place, body, nodes);
    push_nil(place, nodes)
}

/// Writes an `unless` with these arguments.
#[cycle(forms)]
pub fn push_unless(within: Within, place: Place, arguments: Items, nodes: &mut Writer<ExpandedNode>)
    ensures { Wrote nodes.old nodes.new (flat_one (Rows.unless_form (scope_of within.entry) place (parts_in (scope_of within.entry) place arguments.entry))) }
{
    let body = rest(&arguments, 1);
    push_form(CoreKind::If, place, 3, nodes);
    push_head(within, place, arguments, nodes);
    push_nil(place, nodes);
    push_progn(within, place, body, nodes)
}

/// Writes what `or` and `cond` have in common: one as the value of a hidden variable, which is given where it is not
/// NIL. After it comes what is done otherwise.
#[cycle(forms)]
fn push_either(within: Within, place: Place, first: First, nodes: &mut Writer<ExpandedNode>)
    ensures { Wrote nodes.old nodes.new (either_nodes (scope_of within.entry).depth place (first_form (scope_of within.entry) first.entry)) }
{
    let number = within.depth;
    push_form(CoreKind::Let, place, 2, nodes);
    push_first(within, first, nodes);
    push_form(CoreKind::BindLocal(number, 0), place, 1, nodes);
    push_form(CoreKind::If, place, 3, nodes);
    push_local(number, place, nodes);
    push_local(number, place, nodes)
}

/// Writes an `or` of these.
#[cycle(forms)]
pub fn push_or(within: Within, place: Place, arguments: Items, nodes: &mut Writer<ExpandedNode>)
    ensures { Wrote nodes.old nodes.new (flat_one (ors_in (scope_of within.entry) place arguments.entry)) }
{
    let mut open = within.depth;
    let mut left = arguments;
    while let Some((first, others)) = left.split_first() {
        let inner = Within {
            depth: open,
            ..within
        };
        if others.count() == 0 {
            return push_first(inner, first, nodes);
        }
        push_either(inner, place, first, nodes);
        let Ok(behind) = next(open) else {
            return nodes.fill();
        };
        open = behind;
        left = others;
    }
    push_nil(place, nodes)
}

/// Writes a `cond` of these clauses.
#[cycle(forms)]
pub fn push_cond(within: Within, place: Place, clauses: Items, nodes: &mut Writer<ExpandedNode>)
    ensures { Wrote nodes.old nodes.new (flat_one (conds_in (scope_of within.entry) place clauses.entry)) }
{
    let mut open = within.depth;
    let mut left = clauses;
    while let Some((first, others)) = left.split_first() {
        match first {
            First::Leaf(_, _) => (),
            First::List(_, under) => {
                let is_test = under.count() == 1;
                let inner = Within {
                    depth: open,
                    ..within
                };
                push_clause(inner, place, under, nodes);
                if is_test {
                    let Ok(behind) = next(open) else {
                        return nodes.fill();
                    };
                    open = behind;
                }
            }
        }
        left = others;
    }
    push_nil(place, nodes)
}

/// Writes what a clause of `cond` with these adds before the other clauses.
#[cycle(forms)]
fn push_clause(within: Within, place: Place, under: Items, nodes: &mut Writer<ExpandedNode>)
    ensures { Wrote nodes.old nodes.new (clause_nodes (scope_of within.entry).depth place (forms_in (scope_of within.entry) under.entry)) }
{
    let Some((first, body)) = under.split_first() else {
        return;
    };
    if body.count() == 0 {
        return push_either(within, place, first, nodes);
    }
    push_form(CoreKind::If, place, 3, nodes);
    push_first(within, first, nodes);
    push_progn(within, place, body, nodes)
}

/// Writes an `and` of these.
#[cycle(forms)]
pub fn push_and(within: Within, place: Place, arguments: Items, nodes: &mut Writer<ExpandedNode>)
    ensures { Wrote nodes.old nodes.new (flat_one (Rows.and_form (scope_of within.entry) place (parts_in (scope_of within.entry) place arguments.entry))) }
{
    if arguments.count() == 0 {
        return push_true(place, nodes);
    }
    let ifs = arguments.count() - 1;
    let mut left = arguments;
    while let Some((first, others)) = left.split_first() {
        if others.count() > 0 {
            push_form(CoreKind::If, place, 3, nodes);
        }
        push_first(within, first, nodes);
        left = others;
    }
    push_forms(ifs, &CoreKind::Constant(Value::nil()), place, 0, nodes)
}

/// Writes a `prog1` with these arguments.
#[cycle(forms)]
pub fn push_prog1(within: Within, place: Place, arguments: Items, nodes: &mut Writer<ExpandedNode>)
    ensures { Wrote nodes.old nodes.new (flat_one (Rows.prog1_form (scope_of within.entry) place (parts_in (scope_of within.entry) place arguments.entry))) }
{
    let number = within.depth;
    let Ok(inner) = next(within.depth) else {
        return nodes.fill();
    };
    let body = after_declarations(within.base.symbols, rest(&arguments, 1));
    push_form(CoreKind::Let, place, 2, nodes);
    push_head(within, place, arguments, nodes);
    push_form(
        CoreKind::BindLocal(number, 0),
        place,
        body.count() + 1,
        nodes,
    );
    let deeper = Within {
        depth: inner,
        ..within
    };
    push_all(deeper, body, nodes);
    push_local(number, place, nodes)
}

/// Writes a `setq` of these pairs.
#[cycle(forms)]
pub fn push_setq(within: Within, place: Place, arguments: Items, nodes: &mut Writer<ExpandedNode>)
    ensures { Wrote nodes.old nodes.new (flat_one (Rows.setq_form (scope_of within.entry) place (parts_in (scope_of within.entry) place arguments.entry))) }
{
    let count = count_pairs(&arguments);
    if count == 0 {
        return push_nil(place, nodes);
    }
    if count > 1 {
        push_form(CoreKind::Progn, place, count, nodes);
    }
    push_pairs(within, place, arguments, nodes)
}

/// How many pairs these are.
fn count_pairs(items: &Items) -> u32
    ensures { (s : Scope) (place : ℕ) → result ≡ count_of (pairs_in s place items.now) }
{
    let mut pairs = 0;
    let mut left = items.skip(0);
    while let Some((first, others)) = left.split_first() {
        if is_list(&first) {
            return pairs;
        }
        let Some((_, behind)) = others.split_first() else {
            return pairs;
        };
        pairs += 1;
        left = behind;
    }
    pairs
}

/// Writes the pairs of a `setq`.
#[cycle(forms)]
fn push_pairs(within: Within, place: Place, items: Items, nodes: &mut Writer<ExpandedNode>)
    ensures { Wrote nodes.old nodes.new (flat (pairs_in (scope_of within.entry) place items.entry)) }
{
    let mut left = items;
    while let Some((first, others)) = left.split_first() {
        if is_list(&first) {
            return;
        }
        let Some((value, behind)) = others.split_first() else {
            return;
        };
        push_pair(within, place, &first, value, nodes);
        left = behind;
    }
}

/// Writes a pair of a `setq`.
#[cycle(forms)]
fn push_pair(
    within: Within,
    place: Place,
    variable: &First,
    value: First,
    nodes: &mut Writer<ExpandedNode>,
)
    ensures { Wrote nodes.old nodes.new (flat_one (Rows.set_form place (target_in (scope_of within.entry) (symbol_of variable.now)) (place_of variable.now) (first_form (scope_of within.entry) value.entry))) }
{
    match target_within(within, variable) {
        None => push_node(
            Expanded::Refused(Refusal::UnknownVariable),
            place_by(variable),
            0,
            nodes,
        ),
        Some(target) => {
            push_form(set_kind(&target), place, 1, nodes);
            push_first(within, value, nodes)
        }
    }
}

/// Writes an `incf` or `decf` with these arguments.
#[cycle(forms)]
pub fn push_change(
    within: Within,
    target: Target,
    function: Primitive,
    place: Place,
    arguments: Items,
    nodes: &mut Writer<ExpandedNode>,
)
    ensures { Wrote nodes.old nodes.new (flat_one (Rows.change_form (scope_of within.entry) place target function (parts_in (scope_of within.entry) place arguments.entry))) }
{
    let amount = rest(&arguments, 1);
    push_form(set_kind(&target), place, 1, nodes);
    push_form(CoreKind::Apply(function), place, 2, nodes);
    push_head(within, place, arguments, nodes);
    match amount.split_first() {
        None => push_number(1, place, nodes),
        Some((first, _)) => push_first(within, first, nodes),
    }
}

/// Writes a function of two that is folded over these.
#[cycle(forms)]
pub fn push_fold(
    within: Within,
    function: Primitive,
    place: Place,
    arguments: Items,
    nodes: &mut Writer<ExpandedNode>,
)
    ensures { Wrote nodes.old nodes.new (flat_one (Rows.fold_form (scope_of within.entry) place function (parts_in (scope_of within.entry) place arguments.entry))) }
{
    let count = arguments.count();
    if count == 0 {
        return push_nil(place, nodes);
    }
    if count == 1 {
        push_form(CoreKind::Apply(function), place, 2, nodes);
        push_number(unit_of(function), place, nodes);
        return push_all(within, arguments, nodes);
    }
    push_forms(count - 1, &CoreKind::Apply(function), place, 2, nodes);
    push_all(within, arguments, nodes)
}

/// Writes a function of the first of these twice.
#[cycle(forms)]
pub fn push_twice(
    within: Within,
    function: Primitive,
    place: Place,
    arguments: Items,
    nodes: &mut Writer<ExpandedNode>,
)
    ensures { Wrote nodes.old nodes.new (flat_one (Rows.twice_form (scope_of within.entry) place function (parts_in (scope_of within.entry) place arguments.entry))) }
{
    let number = within.depth;
    push_form(CoreKind::Let, place, 2, nodes);
    push_head(within, place, arguments, nodes);
    push_form(CoreKind::BindLocal(number, 0), place, 1, nodes);
    push_form(CoreKind::Apply(function), place, 2, nodes);
    push_local(number, place, nodes);
    push_local(number, place, nodes)
}

/// Writes an `ignore-errors` of these.
#[cycle(forms)]
pub fn push_ignore(within: Within, place: Place, arguments: Items, nodes: &mut Writer<ExpandedNode>)
    ensures { Wrote nodes.old nodes.new (flat_one (Rows.ignore_form (scope_of within.entry) place (parts_in (scope_of within.entry) place arguments.entry))) }
{
    push_form(CoreKind::HandlerCase, place, 2, nodes);
    push_progn(within, place, arguments, nodes);
    push_form(CoreKind::Clause(Class::Error), place, 1, nodes);
    push_nil(place, nodes)
}

/// Writes a `terminate-thread` of the first of these.
#[cycle(forms)]
pub fn push_terminate(
    within: Within,
    place: Place,
    arguments: Items,
    nodes: &mut Writer<ExpandedNode>,
)
    ensures { Wrote nodes.old nodes.new (flat_one (Rows.terminate_form (scope_of within.entry) place (parts_in (scope_of within.entry) place arguments.entry))) }
{
    push_form(CoreKind::Serve(Service::InterruptThread), place, 2, nodes);
    push_head(within, place, arguments, nodes);
    push_form(
        CoreKind::Function(FunctionName::AbortThread),
        place,
        0,
        nodes,
    )
}
