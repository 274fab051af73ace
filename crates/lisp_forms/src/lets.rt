ghost use Rattle.std.specs.Prelude.{◌≡◌, ◌<◌, ◌^◌, IfOk, Some, length};
ghost use Rattle.lisp_base.specs.Writing.{Wrote};
ghost use Rattle.form_shapes.specs.Bindings.{bound_in};
ghost use Rattle.form_shapes.specs.inside.Contexts.{scope_of};
ghost use Rattle.form_shapes.specs.inside.One.{let_variables};
ghost use Rattle.form_shapes.specs.Scopes.{Scope};
ghost use Rattle.lisp_forms.specs.Expansion.{parts_in, values_in};
ghost use Rattle.lisp_forms.specs.inside.Flat.{flat, flat_one};
ghost use Rattle.lisp_forms.specs.inside.Written.{bind_nodes, forms_under, number_behind, turn_nodes, turn_parts};
ghost use Rattle.lisp_forms.specs.inside.Firsts.{bound_value};
ghost use Rattle.lisp_forms.specs.Rows.{bind_kind as bind_kind_of, let_form, let_star_form};

use crate::expand::{push_all, push_head};
use crate::nodes::{push_form, push_nil};
use form_shapes::bindings::{after_declarations, items_first, open_variable, variables_in};
use form_shapes::expanded::ExpandedNode;
use form_shapes::levels::next;
use form_shapes::scope::{Within, has};
use form_shapes::single::rest;
use form_shapes::within::{open_within, opened_within};
use lisp_base::id::{Place, SymbolId};
use lisp_base::memory::Memory;
use lisp_base::writer::Writer;
use lisp_data::items::{First, Items};
use lisp_program::form::CoreKind;

/// Writes a `let` with these arguments.
#[cycle(forms)]
pub fn push_let(within: Within, place: Place, arguments: Items, nodes: &mut Writer<ExpandedNode>)
    ensures { Wrote nodes.old nodes.new (flat_one (let_form (scope_of within.entry) place (let_variables arguments.entry) (parts_in (scope_of within.entry) place arguments.entry))) }
{
    let Ok(variables) = variables_in(within.alloc, &arguments) else {
        return nodes.fill();
    };
    let Ok(open) = opened_within(within, variables.as_slice()) else {
        return nodes.fill();
    };
    let inner = Within {
        levels: &open.levels,
        depth: open.depth,
        ..within
    };
    let body = after_declarations(within.base.symbols, rest(&arguments, 1));
    if variables.is_empty() {
        push_form(CoreKind::Progn, place, body.count(), nodes);
        return push_all(inner, body, nodes);
    }
    let bindings = items_first(&arguments);
    push_form(CoreKind::Let, place, bindings.count() + 1, nodes);
    push_values(within, bindings, nodes);
    push_binds(within, place, variables.as_slice(), body.count(), nodes);
    push_all(inner, body, nodes)
}

/// Writes the values of these bindings.
#[cycle(forms)]
fn push_values(within: Within, bindings: Items, nodes: &mut Writer<ExpandedNode>)
    ensures { Wrote nodes.old nodes.new (flat (values_in (scope_of within.entry) bindings.entry)) }
{
    let mut left = bindings;
    while let Some((first, others)) = left.split_first() {
        push_bound(within, first, nodes);
        left = others;
    }
}

/// Writes the value of a binding.
#[cycle(forms)]
fn push_bound(within: Within, first: First, nodes: &mut Writer<ExpandedNode>)
    ensures { Wrote nodes.old nodes.new (flat_one (bound_value (scope_of within.entry) first.entry)) }
{
    match first {
        First::Leaf(_, place) => push_nil(place, nodes),
        First::List(place, under) => push_head(within, place, rest(&under, 1), nodes),
    }
}

/// The kind of form that binds a variable, where so many are open, to the value with so many others before it.
pub fn bind_kind(specials: &[SymbolId], depth: u32, variable: SymbolId, above: u32) -> CoreKind
    ensures { (s : Scope) → specials.now ≡ s.specials → result ≡ bind_kind_of s depth variable above }
{
    if has(specials, variable) {
        CoreKind::BindSpecial(variable, above)
    } else {
        CoreKind::BindLocal(depth, above)
    }
}

/// Writes the bindings of these variables, one in another, the last with `body` forms under it.
fn push_binds(
    within: Within,
    place: Place,
    variables: &[SymbolId],
    body: u32,
    nodes: &mut Writer<ExpandedNode>,
)
    requires { length variables.now < 2 ^ 30 }
    ensures { Wrote nodes.old nodes.new (bind_nodes (scope_of within.entry) place body variables.now) }
{
    let mut number = within.depth;
    for (index, variable) in variables.iter().enumerate() {
        let above = (variables.len() - 1 - index) as u32;
        let kind = bind_kind(within.base.specials, number, *variable, above);
        push_form(kind, place, forms_under(above, body), nodes);
        let Ok(behind) = number_behind(within.base.specials, number, *variable) else {
            return nodes.fill();
        };
        number = behind;
    }
}

/// How many forms are under a binding with so many others under it, the last of which has this many.
fn forms_under(above: u32, forms: u32) -> u32
    ensures { result ≡ forms_under above forms }
{
    if above == 0 { forms } else { 1 }
}

/// The number after a variable, which has this one: a special one has none.
fn number_behind(specials: &[SymbolId], number: u32, variable: SymbolId) -> Result<u32, Memory>
    ensures { IfOk result (λ behind. behind ≡ number_behind specials.now number variable) }
{
    if has(specials, variable) {
        return Ok(number);
    }
    next(number)
}

/// Writes a `let*` with these arguments.
#[cycle(forms)]
pub fn push_let_star(
    within: Within,
    place: Place,
    arguments: Items,
    nodes: &mut Writer<ExpandedNode>,
)
    ensures { Wrote nodes.old nodes.new (flat_one (let_star_form (scope_of within.entry) place (let_variables arguments.entry) (parts_in (scope_of within.entry) place arguments.entry))) }
{
    let Ok(variables) = variables_in(within.alloc, &arguments) else {
        return nodes.fill();
    };
    let Ok(open) = opened_within(within, variables.as_slice()) else {
        return nodes.fill();
    };
    let inner = Within {
        levels: &open.levels,
        depth: open.depth,
        ..within
    };
    let body = after_declarations(within.base.symbols, rest(&arguments, 1));
    if variables.is_empty() {
        push_form(CoreKind::Progn, place, body.count(), nodes);
        return push_all(inner, body, nodes);
    }
    let bindings = items_first(&arguments);
    push_turns(
        within,
        place,
        variables.as_slice(),
        bindings,
        body.count(),
        nodes,
    );
    push_all(inner, body, nodes)
}

/// Writes what a `let*` of these variables with these bindings has before its body, which has so many forms.
#[cycle(forms)]
fn push_turns(
    within: Within,
    place: Place,
    variables: &[SymbolId],
    bindings: Items,
    body: u32,
    nodes: &mut Writer<ExpandedNode>,
)
    ensures { bound_in bindings.entry ≡ Some variables.now → Wrote nodes.old nodes.new (turn_nodes (scope_of within.entry) place body bindings.entry) }
{
    let Ok(mut open) = open_within(within) else {
        return nodes.fill();
    };
    let mut left = bindings;
    for variable in variables {
        let Some((first, others)) = left.split_first() else {
            return;
        };
        push_form(CoreKind::Let, place, 2, nodes);
        let inner = Within {
            levels: &open.levels,
            depth: open.depth,
            ..within
        };
        push_bound(inner, first, nodes);
        let kind = bind_kind(within.base.specials, open.depth, *variable, 0);
        push_form(kind, place, turn_parts(&others, body), nodes);
        if open_variable(within.base.specials, *variable, &mut open).is_err() {
            return nodes.fill();
        }
        left = others;
    }
}

/// How many forms are under a binding of a `let*` with these others after it, where its body has so many.
#[tactic(auto, using(crate::proofs::Nesting::part_count_last, crate::proofs::Nesting::part_count_other))]
fn turn_parts(others: &Items, body: u32) -> u32
    ensures { result ≡ turn_parts others.now body }
{
    if others.count() == 0 { body } else { 1 }
}
