//! A form's own steps, before those of the forms under it and after them.
ghost use Rattle.std.specs.Prelude.{◌≡◌, ◌++◌, ◌∷◌, [], ◌+◌, ◌<◌, ◌≤◌, length, OnOk};
ghost use Rattle.plain_program.specs.inside.Flatten.{opening_steps, closing_steps};

use crate::act::{Act, Opening, Question};
use crate::form::{PlainKind, PlainNode};
use crate::steps::Step;
use lisp_base::id::SymbolId;
use lisp_base::memory::Memory;

/// Begins the form at a node.
pub fn push_opening(node: &PlainNode, steps: &mut Vec<Step>) -> Result<(), Memory>
    ensures { OnOk result (steps.new.items ≡ steps.old.items ++ opening_steps node.now.kind node.now.place) }
{
    match node.kind {
        PlainKind::Constant(_) | PlainKind::Plus | PlainKind::Print | PlainKind::Progn => Ok(()),
        PlainKind::Special(_) | PlainKind::Setq(_) | PlainKind::Let => Ok(()),
        PlainKind::Defvar(symbol) => push_one(Step::Test(symbol, 0), steps),
        PlainKind::Bind(symbol, above) => {
            push_one(Step::Enter(Opening::Bind(symbol, above), node.place), steps)
        }
    }
}

/// Ends the form at a node. Its steps begin at `start`, and those of the forms under it are written.
pub fn push_closing(node: &PlainNode, start: usize, steps: &mut Vec<Step>) -> Result<(), Memory>
    requires { start + length (opening_steps node.now.kind node.now.place) ≤ length steps.old.items }
    ensures { OnOk result (steps.new.items ≡ closing_steps node.now.kind start steps.old.items) }
{
    match node.kind {
        PlainKind::Constant(value) => push_one(Step::Act(Act::Push(value)), steps),
        PlainKind::Plus => push_one(Step::Act(Act::Add), steps),
        PlainKind::Print => push_one(Step::Ask(Question::Print), steps),
        PlainKind::Progn | PlainKind::Let => Ok(()),
        PlainKind::Special(symbol) => push_one(Step::Ask(Question::Read(symbol)), steps),
        PlainKind::Setq(symbol) => push_one(Step::Ask(Question::Write(symbol)), steps),
        PlainKind::Defvar(symbol) => push_defined(symbol, start, steps),
        PlainKind::Bind(_, _) => push_one(Step::Leave, steps),
    }
}

/// Writes one step.
fn push_one(step: Step, steps: &mut Vec<Step>) -> Result<(), Memory>
    ensures { OnOk result (steps.new.items ≡ steps.old.items ++ step ∷ []) }
{
    steps.extend_from_slice(&[step])?;
    Ok(())
}

/// Ends a `defvar` whose test stands at `start`: the test passes over the steps of the value and over this one.
fn push_defined(symbol: SymbolId, start: usize, steps: &mut Vec<Step>) -> Result<(), Memory>
    requires { start < length steps.old.items }
    ensures { OnOk result (steps.new.items ≡ closing_steps (PlainKind.Defvar symbol) start steps.old.items) }
{
    let count = steps.as_slice().len() - start;
    steps[start] = Step::Test(symbol, count);
    steps.extend_from_slice(&[Step::Ask(Question::Define(symbol))])?;
    Ok(())
}
