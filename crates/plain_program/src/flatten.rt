ghost use Rattle.std.specs.Prelude.{◌≡◌, ◌++◌, ◌∷◌, [], ◌+◌, ◌<◌, ◌≤◌, false, drop, length, OnOk, IfOk};
ghost use Rattle.lisp_base.specs.Value.{nil};
ghost use Rattle.plain_program.specs.Forms.{forms_of};
ghost use Rattle.plain_program.specs.Points.{main_points};
ghost use Rattle.plain_program.specs.inside.Steps.{steps_of};
ghost use Rattle.plain_program.specs.inside.Flatten.{Writes, strung, body_steps, operand_steps, under_steps, between};

use crate::act::{Act, Question};
use crate::form::{PlainKind, PlainNode};
use crate::own_steps::{push_closing, push_opening};
use crate::steps::Step;
use lisp_base::memory::Memory;
use lisp_base::value::Value;
use std::alloc::Global;

/// Discards the value of a form of a body where `left` more forms are to come and there is a node at `at`.
#[tactic(auto, using(crate::proofs::Flattened::between_there, crate::proofs::Flattened::between_outside, crate::proofs::Flattened::between_no_body))]
fn push_between(
    body: bool,
    left: usize,
    nodes: &[PlainNode],
    at: usize,
    steps: &mut Vec<Step>,
) -> Result<(), Memory>
    ensures { OnOk result (steps.new.items ≡ steps.old.items ++ between body left (drop at nodes.now)) }
{
    if body && left > 0 && at < nodes.len() {
        steps.extend_from_slice(&[Step::Act(Act::Discard)])?;
        Ok(())
    } else {
        Ok(())
    }
}

/// Writes the steps of the next `count` forms from the node at `from` on, and gives the node at which the forms after
/// them begin.
#[cycle(forms)]
fn push_forms(
    nodes: &[PlainNode],
    from: usize,
    count: usize,
    body: bool,
    steps: &mut Vec<Step>,
) -> Result<usize, Memory>
    requires { from ≤ length nodes.now }
    ensures { IfOk result (Writes nodes.now from count (strung body) steps.old.items steps.new.items) }
{
    let mut at = from;
    for done in 0..count {
        if at == nodes.len() {
            return Ok(at);
        }
        at = push_form(nodes, at, steps)?;
        push_between(body, count - (done + 1), nodes, at, steps)?;
    }
    Ok(at)
}

/// Writes the steps of the form at a node.
#[cycle(forms)]
fn push_form(nodes: &[PlainNode], at: usize, steps: &mut Vec<Step>) -> Result<usize, Memory>
    requires { at < length nodes.now }
    ensures writes { IfOk result (Writes nodes.now at 1 (strung false) steps.old.items steps.new.items) }
    ensures on { IfOk result (λ next. at < next) }
{
    let node = &nodes[at];
    let parts = node.parts as usize;
    let start = steps.as_slice().len();
    push_opening(node, steps)?;
    let next = push_under(node.kind, nodes, at + 1, parts, steps)?;
    push_closing(node, start, steps)?;
    Ok(next)
}

/// Writes the steps of the forms under a form of this kind.
#[cycle(forms)]
fn push_under(
    kind: PlainKind,
    nodes: &[PlainNode],
    from: usize,
    count: usize,
    steps: &mut Vec<Step>,
) -> Result<usize, Memory>
    requires { from ≤ length nodes.now }
    ensures { IfOk result (Writes nodes.now from count (under_steps kind) steps.old.items steps.new.items) }
{
    match kind {
        PlainKind::Constant(_) => push_operands(nodes, from, count, 0, steps),
        PlainKind::Plus => push_operands(nodes, from, count, 2, steps),
        PlainKind::Print => push_operands(nodes, from, count, 1, steps),
        PlainKind::Progn => push_body(nodes, from, count, steps),
        PlainKind::Special(_) => push_operands(nodes, from, count, 0, steps),
        PlainKind::Setq(_) => push_operands(nodes, from, count, 1, steps),
        PlainKind::Defvar(_) => push_operands(nodes, from, count, 1, steps),
        PlainKind::Let => push_forms(nodes, from, count, false, steps),
        PlainKind::Bind(_, _) => push_body(nodes, from, count, steps),
    }
}

/// Writes the steps of the first `wanted` of the next `count` forms, and NIL for each that is missing.
#[tactic(auto, using(crate::proofs::Flattened::operands_missing, crate::proofs::Flattened::operands_written))]
#[cycle(forms)]
fn push_operands(
    nodes: &[PlainNode],
    from: usize,
    count: usize,
    wanted: usize,
    steps: &mut Vec<Step>,
) -> Result<usize, Memory>
    requires { from ≤ length nodes.now }
    ensures { IfOk result (Writes nodes.now from count (operand_steps wanted) steps.old.items steps.new.items) }
{
    if wanted == 0 {
        return Ok(pass_over(nodes, from, count, steps)?);
    }
    if count == 0 {
        push_nils(wanted, steps)?;
        return Ok(from);
    }
    if from == nodes.len() {
        push_nils(wanted, steps)?;
        return Ok(from);
    }
    let next = push_form(nodes, from, steps)?;
    Ok(push_operands(nodes, next, count - 1, wanted - 1, steps)?)
}

/// Passes over the next `count` forms, of which nothing stays written.
#[tactic(auto, using(crate::proofs::Flattened::passed_over))]
#[cycle(forms)]
fn pass_over(
    nodes: &[PlainNode],
    from: usize,
    count: usize,
    steps: &mut Vec<Step>,
) -> Result<usize, Memory>
    requires { from ≤ length nodes.now }
    ensures { IfOk result (Writes nodes.now from count (operand_steps 0) steps.old.items steps.new.items) }
{
    let start = steps.as_slice().len();
    let next = push_forms(nodes, from, count, false, steps)?;
    steps.truncate(start);
    Ok(next)
}

/// Writes the steps of the next `count` forms as a body.
#[tactic(auto, using(crate::proofs::Flattened::none_wanted, crate::proofs::Flattened::none_there, crate::proofs::Flattened::body_written))]
#[cycle(forms)]
fn push_body(
    nodes: &[PlainNode],
    from: usize,
    count: usize,
    steps: &mut Vec<Step>,
) -> Result<usize, Memory>
    requires { from ≤ length nodes.now }
    ensures { IfOk result (Writes nodes.now from count body_steps steps.old.items steps.new.items) }
{
    if count == 0 {
        push_nil(steps)?;
        return Ok(from);
    }
    if from == nodes.len() {
        push_nil(steps)?;
        return Ok(from);
    }
    Ok(push_forms(nodes, from, count, true, steps)?)
}

/// Writes the constant NIL so many times.
#[tactic(auto, using(crate::proofs::Flattened::nil_more))]
fn push_nils(count: usize, steps: &mut Vec<Step>) -> Result<(), Memory>
    ensures { OnOk result (steps.new.items ≡ steps.old.items ++ operand_steps count []) }
{
    for _done in 0..count {
        push_nil(steps)?;
    }
    Ok(())
}

/// Writes the constant NIL.
fn push_nil(steps: &mut Vec<Step>) -> Result<(), Memory>
    ensures { OnOk result (steps.new.items ≡ steps.old.items ++ Step.Act (Act.Push nil) ∷ []) }
{
    steps.extend_from_slice(&[Step::Act(Act::Push(Value::nil()))])?;
    Ok(())
}

/// The steps of main, whose forms are these in preorder: its forms as a body, and its end.
pub fn main_steps(alloc: Global, nodes: &[PlainNode]) -> Result<Vec<Step>, Memory>
    ensures { IfOk result (λ steps. steps.items ≡ steps_of (main_points (forms_of nodes.now))) }
{
    let mut steps = Vec::new(alloc);
    push_body(nodes, 0, nodes.len(), &mut steps)?;
    push_end(&mut steps)?;
    Ok(steps)
}

/// Writes the end of the thread.
fn push_end(steps: &mut Vec<Step>) -> Result<(), Memory>
    ensures { OnOk result (steps.new.items ≡ steps.old.items ++ Step.Ask Question.EndThread ∷ []) }
{
    steps.extend_from_slice(&[Step::Ask(Question::EndThread)])?;
    Ok(())
}
