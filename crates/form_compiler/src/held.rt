//! How many values a call holds by a line.
ghost use Rattle.std.specs.Prelude.{◌≡◌, IfOk};
ghost use Rattle.form_points.specs.Operands;
ghost use Rattle.lisp_code.specs.Held;

use crate::hold::Hold;
use crate::operands::{operands_of, printed_of, served_of};
use form_points::act::{Act, Opening, Question, Step};
use lisp_base::memory::Memory;

/// How many operands an act takes away.
fn act_takes(act: &Act) -> usize
    ensures { result ≡ Operands.act_takes act.now }
{
    match act {
        Act::WriteLocal(_) | Act::Discard | Act::ReturnFrom(_) | Act::ReturnFromThread => 1,
        Act::BindLocal(_, above) => *above as usize + 1,
        Act::Apply(function) => operands_of(function),
        Act::Call(_, count) => *count as usize,
        Act::Throw => 2,
        Act::Push(_)
        | Act::PushFunction(_)
        | Act::PushThread
        | Act::ReadLocal(_)
        | Act::ForgetLocal
        | Act::Signal(_)
        | Act::AbortThread => 0,
    }
}

/// What is held after an act.
fn after_act(act: &Act, hold: Hold) -> Result<Hold, Memory>
    ensures { IfOk result (λ h. h ≡ Held.after_act act.now hold) }
{
    match act {
        Act::BindLocal(_, _) => hold.bound(),
        Act::ForgetLocal => Ok(hold.one_closed()),
        Act::Discard => Ok(hold.without_one()),
        Act::Push(_)
        | Act::PushFunction(_)
        | Act::PushThread
        | Act::ReadLocal(_)
        | Act::WriteLocal(_)
        | Act::Apply(_)
        | Act::Call(_, _)
        | Act::ReturnFrom(_)
        | Act::Throw
        | Act::Signal(_)
        | Act::AbortThread
        | Act::ReturnFromThread => hold.fewer(act_takes(act)).one_more(),
    }
}

/// So many values, where a variable that is named counts as open.
fn named(variable: u32, held: u32) -> Result<u32, Memory>
    ensures { IfOk result (λ n. n ≡ Held.named variable held) }
{
    Ok(variable.checked_add(1).ok_or(Memory)?.max(held))
}

/// How many values are held by an act.
pub(crate) fn held_by(act: &Act, hold: Hold) -> Result<u32, Memory>
    ensures { IfOk result (λ n. n ≡ Held.held_by act.now hold) }
{
    match act {
        Act::ReadLocal(variable) | Act::WriteLocal(variable) | Act::BindLocal(variable, _) => {
            named(*variable, after_act(act, hold)?.total()?)
        }
        Act::ReturnFrom(block) => named(*block, hold.without_one().total()?),
        Act::Throw => hold.without(2).total(),
        Act::Signal(_) | Act::AbortThread => hold.total(),
        Act::ReturnFromThread => hold.without_one().total(),
        Act::Push(_)
        | Act::PushFunction(_)
        | Act::PushThread
        | Act::ForgetLocal
        | Act::Discard
        | Act::Apply(_)
        | Act::Call(_, _) => after_act(act, hold)?.total(),
    }
}

/// How many operands a question takes away.
fn question_takes(question: &Question) -> usize
    ensures { result ≡ Operands.question_takes question.now }
{
    match question {
        Question::Print(printing) => printed_of(printing),
        Question::Read(_) | Question::IsBound(_) => 0,
        Question::Write(_) | Question::Define(_) | Question::EndThread => 1,
        Question::CompareAndSwap(_) => 2,
        Question::Serve(service, _) => served_of(service),
    }
}

/// How many values are held by a question.
pub(crate) fn held_at(question: &Question, hold: Hold) -> Result<u32, Memory>
    ensures { IfOk result (λ n. n ≡ Held.held_at question.now hold) }
{
    let left = hold.fewer(question_takes(question));
    match question {
        Question::Serve(_, Step::Clock | Step::Begin) => left.total(),
        Question::Serve(_, Step::Main | Step::Try | Step::Wake | Step::Regrab)
        | Question::Print(_)
        | Question::Read(_)
        | Question::Write(_)
        | Question::IsBound(_)
        | Question::Define(_)
        | Question::CompareAndSwap(_)
        | Question::EndThread => left.one_more()?.total(),
    }
}

/// How many values are held in a frame that is opened.
pub(crate) fn held_in(opening: &Opening, hold: Hold) -> Result<u32, Memory>
    ensures { IfOk result (λ n. n ≡ Held.held_in opening.now hold) }
{
    match opening {
        Opening::Block(number) | Opening::WithoutInterrupts(number) => {
            named(*number, hold.one_open()?.total()?)
        }
        Opening::AllowWithInterrupts(number) => named(*number, hold.total()?),
        Opening::Bind(_, _) | Opening::Catch | Opening::WithInterrupts | Opening::Deadline { .. } =>
            hold.inside(opening)?.total(),
    }
}
