ghost use Rattle.std.specs.Prelude.{◌≡◌, IfOk};
ghost use Rattle.lisp_base.specs.Writing.{Wrote};
ghost use Rattle.form_shapes.specs.inside.Contexts.{scope_of, with_opened};
ghost use Rattle.lisp_forms.specs.Expansion.{body_in, parts_in, within_first};
ghost use Rattle.lisp_forms.specs.Rows.{in_dotimes, in_turn, result_of};
ghost use Rattle.lisp_forms.specs.inside.Flat.{flat_one};
ghost use Rattle.lisp_forms.specs.Rows;
ghost use Rattle.lisp_forms.specs.inside.Written.{turn_head};

use crate::expand::{push_all, push_head};
use crate::lets::bind_kind;
use crate::nodes::{push_form, push_local, push_nil, push_node, push_number, push_true};
use form_shapes::bindings::{after_declarations, items_first, open_variable};
use form_shapes::expanded::{Expanded, ExpandedNode, Turning};
use form_shapes::keywords::Roles;
use form_shapes::levels::{Level, next};
use form_shapes::scope::{Opened, Within};
use form_shapes::single::rest;
use form_shapes::within::level_within;
use lisp_base::id::{Place, SymbolId};
use lisp_base::memory::Memory;
use lisp_base::writer::Writer;
use lisp_data::items::Items;
use lisp_program::form::CoreKind;
use lisp_program::function::Primitive;

/// Writes a `loop` of these.
#[cycle(forms)]
pub fn push_loop(within: Within, place: Place, arguments: Items, nodes: &mut Writer<ExpandedNode>)
    ensures { Wrote nodes.old nodes.new (flat_one (Rows.loop_form (scope_of within.entry) place (parts_in (scope_of within.entry) place arguments.entry))) }
{
    let Ok(open) = level_within(within, Level::Block(SymbolId::nil())) else {
        return nodes.fill();
    };
    let body = after_declarations(within.base.symbols, arguments);
    let kind = Expanded::InBlock(within.depth, Turning::While);
    push_node(kind, place, body.count() + 1, nodes);
    push_true(place, nodes);
    let inner = Within {
        levels: &open.levels,
        depth: open.depth,
        ..within
    };
    push_all(inner, body, nodes)
}

/// What is open in a `dotimes`: its block, and two variables that no program can name.
fn opened_turns(within: Within) -> Result<Opened, Memory>
    ensures { IfOk result (λ opened. with_opened (scope_of within.entry) opened ≡ in_dotimes (scope_of within.entry)) }
{
    let mut open = level_within(within, Level::Block(SymbolId::nil()))?;
    open.deepen()?;
    open.deepen()?;
    Ok(open)
}

/// Writes a `dotimes` of this variable with these arguments.
#[cycle(forms)]
pub fn push_dotimes(
    within: Within,
    variable: SymbolId,
    place: Place,
    arguments: Items,
    nodes: &mut Writer<ExpandedNode>,
)
    ensures { Wrote nodes.old nodes.new (flat_one (Rows.dotimes_form (scope_of within.entry) place variable (parts_in (scope_of within.entry) place arguments.entry))) }
{
    let Ok(block) = level_within(within, Level::Block(SymbolId::nil())) else {
        return nodes.fill();
    };
    let items = items_first(&arguments);
    let kind = Expanded::InBlock(within.depth, Turning::Let);
    push_node(kind, place, 3, nodes);
    let inner = Within {
        levels: &block.levels,
        depth: block.depth,
        ..within
    };
    push_head(inner, place, rest(&items, 1), nodes);
    push_number(0, place, nodes);
    push_turns(within, variable, place, arguments, nodes)
}

/// Writes what a `dotimes` does after its number of turns.
#[cycle(forms)]
fn push_turns(
    within: Within,
    variable: SymbolId,
    place: Place,
    arguments: Items,
    nodes: &mut Writer<ExpandedNode>,
)
    ensures { Wrote nodes.old nodes.new (flat_one (Rows.turns_form (scope_of within.entry) place variable (body_in (in_turn (scope_of within.entry) variable) 1 arguments.entry) (result_of (within_first (in_turn (scope_of within.entry) variable) (Roles.From 0) arguments.entry)))) }
{
    let Ok(mut open) = opened_turns(within) else {
        return nodes.fill();
    };
    let Ok(limit) = next(within.depth) else {
        return nodes.fill();
    };
    let Ok(done) = next(limit) else {
        return nodes.fill();
    };
    let kind = bind_kind(within.base.specials, open.depth, variable, 0);
    if open_variable(within.base.specials, variable, &mut open).is_err() {
        return nodes.fill();
    }
    let body = after_declarations(within.base.symbols, rest(&arguments, 1));
    push_form(CoreKind::BindLocal(limit, 1), place, 1, nodes);
    push_form(CoreKind::BindLocal(done, 0), place, 2, nodes);
    push_form(CoreKind::While, place, 3, nodes);
    push_more(limit, done, place, nodes);
    push_bound_turn(done, &kind, place, body.count(), nodes);
    let inner = Within {
        levels: &open.levels,
        depth: open.depth,
        ..within
    };
    push_all(inner, body, nodes);
    push_step(done, place, nodes);
    push_result(inner, done, &kind, place, arguments, nodes)
}

/// Writes whether there are more turns.
fn push_more(limit: u32, done: u32, place: Place, nodes: &mut Writer<ExpandedNode>)
    ensures { Wrote nodes.old nodes.new (flat_one (Rows.more_form place limit done)) }
{
    push_form(CoreKind::Apply(Primitive::Less), place, 2, nodes);
    push_local(done, place, nodes);
    push_local(limit, place, nodes)
}

/// Writes that one more turn is done.
fn push_step(done: u32, place: Place, nodes: &mut Writer<ExpandedNode>)
    ensures { Wrote nodes.old nodes.new (flat_one (Rows.step_form place done)) }
{
    push_form(CoreKind::SetLocal(done), place, 1, nodes);
    push_form(CoreKind::Apply(Primitive::Add), place, 2, nodes);
    push_local(done, place, nodes);
    push_number(1, place, nodes)
}

/// Writes what binds the variable of a `dotimes`, by this kind of form, round a body of so many forms.
fn push_bound_turn(
    done: u32,
    kind: &CoreKind,
    place: Place,
    body: u32,
    nodes: &mut Writer<ExpandedNode>,
)
    ensures { Wrote nodes.old nodes.new (turn_head place done kind.now body) }
{
    push_form(CoreKind::Let, place, 2, nodes);
    push_local(done, place, nodes);
    push_form(*kind, place, body, nodes)
}

/// Writes the result of a `dotimes` with these arguments, whose variable is bound by this kind of form.
#[cycle(forms)]
fn push_result(
    within: Within,
    done: u32,
    kind: &CoreKind,
    place: Place,
    arguments: Items,
    nodes: &mut Writer<ExpandedNode>,
)
    ensures { Wrote nodes.old nodes.new (flat_one (Rows.result_form place done kind.now (result_of (within_first (scope_of within.entry) (Roles.From 0) arguments.entry)))) }
{
    let left = rest(&items_first(&arguments), 2);
    if left.count() == 0 {
        return push_nil(place, nodes);
    }
    push_bound_turn(done, kind, place, 1, nodes);
    push_head(within, place, left, nodes)
}
