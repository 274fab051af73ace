//! How many operands points and instructions take, and how many values they leave in their place.
ghost use Rattle.std.specs.Prelude.{◌≡◌, ◌+◌, ◌^◌, ◌<◌, ◌≤◌};
ghost use Rattle.form_points.specs.Operands.{act_leaves, act_takes, opening_leaves, opening_takes, operands_of, printed_of, question_leaves, question_takes, served_of, written};
ghost use Rattle.lisp_code.specs.Validity.{is_exit, left_by, left_by_act, left_by_question, replaced, takes_of};

use crate::instr::Instr;
use form_points::act::{Act, Opening, Question, Step};
use lisp_program::function::{Primitive, Printing, Service};

/// How many operands there are where so many stand in place of those that are taken.
pub fn replaced(takes: u64, leaves: u32, height: u32) -> u64
    ensures value { result ≡ replaced takes leaves height }
    ensures limit { result < 2 ^ 33 }
{
    u64::from(leaves) + u64::from(height).saturating_sub(takes)
}

/// How many arguments a function with local points has.
pub fn operands_of(function: Primitive) -> u32
    ensures { result ≡ operands_of function }
{
    match function {
        Primitive::MainThread | Primitive::ThreadYield => 0,
        Primitive::Increment
        | Primitive::Decrement
        | Primitive::Abs
        | Primitive::Zerop
        | Primitive::Not
        | Primitive::Null
        | Primitive::Symbolp
        | Primitive::Integerp
        | Primitive::Stringp => 1,
        Primitive::Add
        | Primitive::Subtract
        | Primitive::Multiply
        | Primitive::Max
        | Primitive::Min
        | Primitive::Floor
        | Primitive::Truncate
        | Primitive::Mod
        | Primitive::Rem
        | Primitive::Equals
        | Primitive::Differs
        | Primitive::Less
        | Primitive::Greater
        | Primitive::AtMost
        | Primitive::AtLeast
        | Primitive::Eq
        | Primitive::Eql
        | Primitive::Equal => 2,
    }
}

/// How many arguments a function that prints has.
pub fn printed_of(printing: &Printing) -> u32
    ensures { result ≡ printed_of printing.now }
{
    match printing {
        Printing::Print | Printing::Prin1 | Printing::Princ => 1,
        Printing::Terpri => 0,
        Printing::Format(_, count) => *count,
    }
}

/// How many of two keywords are written.
pub fn written(first: bool, second: bool) -> u32
    ensures value { result ≡ written first second }
    ensures limit { result ≤ 2 }
{
    u32::from(first) + u32::from(second)
}

/// How many arguments a service has: those that it must have, and those of the keywords that are written.
pub fn served_of(service: Service) -> u32
    ensures { result ≡ served_of service }
{
    match service {
        Service::MakeThread { name, arguments } => 1 + written(name, arguments),
        Service::JoinThread { default, timeout } => 1 + written(default, timeout),
        Service::MakeMutex { name } => u32::from(name),
        Service::MakeWaitqueue { name } => u32::from(name),
        Service::GrabMutex { waitp, timeout } => 1 + written(waitp, timeout),
        Service::ReleaseMutex { if_not_owner } => 1 + u32::from(if_not_owner),
        Service::ConditionWait { timeout } => 2 + u32::from(timeout),
        Service::ConditionNotify { count } => 1 + u32::from(count),
        Service::MakeTimer { name, thread } => 1 + written(name, thread),
        Service::ScheduleTimer {
            repeat_interval,
            catch_up,
        } => 2 + written(repeat_interval, catch_up),
        Service::InterruptThread => 2,
        Service::ThreadAlive
        | Service::MutexOwner
        | Service::HoldingMutex
        | Service::ConditionBroadcast
        | Service::Sleep
        | Service::UnscheduleTimer => 1,
    }
}

/// How many operands an act takes away.
pub fn act_takes(act: &Act) -> u64
    ensures { result ≡ act_takes act.now }
{
    match act {
        Act::BindLocal(_, above) => u64::from(*above) + 1,
        Act::Apply(function) => operands_of(*function).into(),
        Act::Call(_, count) => u64::from(*count),
        Act::WriteLocal(_) | Act::Discard | Act::ReturnFrom(_) | Act::ReturnFromThread => 1,
        Act::Throw => 2,
        Act::Push(_)
        | Act::PushFunction(_)
        | Act::PushThread
        | Act::ReadLocal(_)
        | Act::ForgetLocal
        | Act::Signal(_)
        | Act::AbortThread => 0,
    }
}

/// How many operands an act leaves in place of those that it takes. One after which the thread goes on elsewhere counts as one that gives a value.
pub fn act_leaves(act: &Act) -> u32
    ensures { result ≡ act_leaves act.now }
{
    match act {
        Act::BindLocal(_, above) => *above,
        Act::ForgetLocal | Act::Discard => 0,
        Act::Push(_)
        | Act::PushFunction(_)
        | Act::PushThread
        | Act::ReadLocal(_)
        | Act::WriteLocal(_)
        | Act::Apply(_)
        | Act::Call(..)
        | Act::ReturnFrom(_)
        | Act::Throw
        | Act::Signal(_)
        | Act::AbortThread
        | Act::ReturnFromThread => 1,
    }
}

/// Whether the thread goes on elsewhere after an act.
pub fn is_exit(act: &Act) -> bool
    ensures { result ≡ is_exit act.now }
{
    matches!(
        act,
        Act::ReturnFrom(_) | Act::Throw | Act::Signal(_) | Act::AbortThread | Act::ReturnFromThread
    )
}

/// How many operands a question takes away.
pub fn question_takes(question: &Question) -> u32
    ensures { result ≡ question_takes question.now }
{
    match question {
        Question::Print(printing) => printed_of(printing),
        Question::Serve(service, _) => served_of(*service),
        Question::Read(_) | Question::IsBound(_) => 0,
        Question::Write(_) | Question::Define(_) | Question::EndThread => 1,
        Question::CompareAndSwap(_) => 2,
    }
}

/// How many operands a question leaves in place of those that it takes: each step of a service but the last keeps its operands.
pub fn question_leaves(question: &Question) -> u32
    ensures { result ≡ question_leaves question.now }
{
    match question {
        Question::Serve(service, Step::Clock | Step::Begin) => served_of(*service),
        Question::Serve(_, Step::Main | Step::Try | Step::Wake | Step::Regrab)
        | Question::Print(_)
        | Question::Read(_)
        | Question::Write(_)
        | Question::IsBound(_)
        | Question::Define(_)
        | Question::CompareAndSwap(_)
        | Question::EndThread => 1,
    }
}

/// How many operands a point that opens a frame takes away.
pub fn opening_takes(opening: &Opening) -> u64
    ensures { result ≡ opening_takes opening.now }
{
    match opening {
        Opening::Bind(_, above) => u64::from(*above) + 1,
        Opening::Deadline { seconds, replaces } => written(*seconds, *replaces).into(),
        Opening::Catch => 1,
        Opening::Block(_)
        | Opening::WithoutInterrupts(_)
        | Opening::AllowWithInterrupts(_)
        | Opening::WithInterrupts => 0,
    }
}

/// How many operands a point that opens a frame leaves in place of those that it takes: those that stand before the value of a binding.
pub fn opening_leaves(opening: &Opening) -> u32
    ensures { result ≡ opening_leaves opening.now }
{
    match opening {
        Opening::Bind(_, above) => *above,
        Opening::Block(_)
        | Opening::Catch
        | Opening::WithoutInterrupts(_)
        | Opening::AllowWithInterrupts(_)
        | Opening::WithInterrupts
        | Opening::Deadline { .. } => 0,
    }
}

/// How many operands there are after a question.
pub fn height_after(question: &Question, height: u32) -> u64
    ensures { result ≡ replaced (question_takes question.now) (question_leaves question.now) height }
{
    replaced(
        question_takes(question).into(),
        question_leaves(question),
        height,
    )
}

/// How many operands there are in the frame that a point opens.
pub fn height_inside(opening: &Opening, height: u32) -> u64
    ensures value { result ≡ replaced (opening_takes opening.now) (opening_leaves opening.now) height }
    ensures limit { result < 2 ^ 33 }
{
    replaced(opening_takes(opening), opening_leaves(opening), height)
}

/// How many operands an instruction takes.
pub fn takes_of(instr: &Instr) -> u64
    ensures { result ≡ takes_of instr.now }
{
    match instr {
        Instr::Do(act) => act_takes(act),
        Instr::Call(_, count) => u64::from(*count),
        Instr::Ask(question) | Instr::Test(question, _) => question_takes(question).into(),
        Instr::Enter(opening, _) => opening_takes(opening),
        Instr::Branch(_)
        | Instr::LoopTest(_)
        | Instr::Leave
        | Instr::LeaveProtect
        | Instr::LeaveCleanup
        | Instr::LeaveHandler(_) => 1,
        Instr::Jump(_) | Instr::EnterProtect(_) | Instr::EnterHandler(_) => 0,
    }
}

/// How many operands there are after an act, but for one after which the thread goes on elsewhere.
fn left_by_act(act: &Act, height: u32) -> u64
    ensures { result ≡ left_by_act (is_exit act.now) act.now height }
{
    if is_exit(act) {
        0
    } else {
        replaced(act_takes(act), act_leaves(act), height)
    }
}

/// How many operands there are after a question that gives a value; the clock's reading and the beginning of a wait give none.
fn left_by_question(question: &Question, height: u32) -> u64
    ensures { result ≡ left_by_question question.now height }
{
    match question {
        Question::Serve(_, Step::Clock | Step::Begin) => 0,
        Question::Serve(_, Step::Main | Step::Try | Step::Wake | Step::Regrab)
        | Question::Print(_)
        | Question::Read(_)
        | Question::Write(_)
        | Question::IsBound(_)
        | Question::Define(_)
        | Question::CompareAndSwap(_)
        | Question::EndThread => replaced(question_takes(question).into(), 1, height),
    }
}

/// How many operands there are after an instruction that gives a value or opens a frame; 0 for the others.
pub fn left_by(instr: &Instr, height: u32) -> u64
    ensures { result ≡ left_by instr.now height }
{
    match instr {
        Instr::Do(act) => left_by_act(act, height),
        Instr::Call(_, count) => replaced(u64::from(*count), 1, height),
        Instr::Ask(question) | Instr::Test(question, _) => left_by_question(question, height),
        Instr::LoopTest(_) => height.into(),
        Instr::Enter(opening, _) => replaced(
            opening_takes(opening),
            opening_leaves(opening),
            height,
        ),
        Instr::Branch(_)
        | Instr::Jump(_)
        | Instr::EnterProtect(_)
        | Instr::EnterHandler(_)
        | Instr::Leave
        | Instr::LeaveProtect
        | Instr::LeaveCleanup
        | Instr::LeaveHandler(_) => 0,
    }
}
