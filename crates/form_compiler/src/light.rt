//! Lines without clauses, as the compiler writes them.
ghost use Rattle.std.specs.Prelude.{◌≡◌, IfOk};
ghost use Rattle.lisp_code.specs.Held;
ghost use Rattle.lisp_code.specs.declared.instr.Instr.TheVariants as instr;
ghost use Rattle.form_compiler.specs.inside.Marks;
ghost use Rattle.form_compiler.specs.inside.Marks.{HasNoClauses};

use crate::held::{held_at, held_by, held_in};
use crate::hold::Hold;
use crate::mark::{Light, Mark};
use crate::names::Names;
use form_points::act::{Act, Opening, Question};
use lisp_base::condition::{Class, Condition};
use lisp_base::id::Place;
use lisp_base::memory::Memory;
use lisp_code::instr::Instr;

/// An instruction of the form at a place, before which this is held, and by which so many values are held.
pub(crate) fn light(instr: Instr, place: Place, hold: Hold, held: u32) -> Light
    requires { HasNoClauses instr }
    ensures { result ≡ Marks.mark instr place hold held }
{
    Light::of(Mark {
        instr,
        place,
        height: hold.height(),
        held,
    })
}

/// An instruction of the form at a place, by which all the values of `held_of` are held.
pub(crate) fn plain_light(
    instr: Instr,
    place: Place,
    hold: Hold,
    held_of: Hold,
) -> Result<Light, Memory>
    requires { HasNoClauses instr }
    ensures { IfOk result (λ l. l ≡ Marks.mark instr place hold (Held.total held_of)) }
{
    Ok(light(instr, place, hold, held_of.total()?))
}

/// A call of a function that there is, or the signal where there is none.
fn call_instr(function: Option<u32>, count: u32) -> Instr
    ensures value { result ≡ Marks.call_instr function count }
    ensures light { HasNoClauses result }
{
    match function {
        Some(function) => Instr::Call(function, count),
        None => Instr::Do(Act::Signal(Condition {
            class: Class::UndefinedFunction,
            text: None,
        })),
    }
}

/// The instruction of an act.
fn act_instr(names: &Names, act: Act) -> Instr
    ensures value { result ≡ Marks.act_instr names.now act }
    ensures light { HasNoClauses result }
{
    match act {
        Act::Call(function, count) => call_instr(names.seat(function), count),
        Act::Push(_)
        | Act::PushFunction(_)
        | Act::PushThread
        | Act::ReadLocal(_)
        | Act::WriteLocal(_)
        | Act::BindLocal(_, _)
        | Act::ForgetLocal
        | Act::Discard
        | Act::Apply(_)
        | Act::ReturnFrom(_)
        | Act::Throw
        | Act::Signal(_)
        | Act::AbortThread
        | Act::ReturnFromThread => Instr::Do(act),
    }
}

/// The line of an act.
pub(crate) fn act_light(names: &Names, act: Act, place: Place, hold: Hold) -> Result<Light, Memory>
    ensures { IfOk result (λ l. l ≡ Marks.act_mark names.now act place hold) }
{
    let held = held_by(&act, hold)?;
    Ok(light(act_instr(names, act), place, hold, held))
}

/// The line of a question.
pub(crate) fn ask_light(question: Question, place: Place, hold: Hold) -> Result<Light, Memory>
    ensures { IfOk result (λ l. l ≡ Marks.ask_mark question place hold) }
{
    let held = held_at(&question, hold)?;
    Ok(light(Instr::Ask(question), place, hold, held))
}

/// The line of a question that goes on at a position where it settles the matter.
pub(crate) fn test_light(
    question: Question,
    to: u32,
    place: Place,
    hold: Hold,
) -> Result<Light, Memory>
    ensures { IfOk result (λ l. l ≡ Marks.test_mark question to place hold) }
{
    let held = held_at(&question, hold)?;
    Ok(light(Instr::Test(question, to), place, hold, held))
}

/// The line that opens a frame, which an exit leaves to a position.
pub(crate) fn enter_light(
    opening: Opening,
    back: u32,
    place: Place,
    hold: Hold,
) -> Result<Light, Memory>
    ensures { IfOk result (λ l. l ≡ Marks.mark (instr.Enter opening back) place hold (Held.held_in opening hold)) }
{
    let held = held_in(&opening, hold)?;
    Ok(light(Instr::Enter(opening, back), place, hold, held))
}

/// The line that leaves a frame, before whose opening this is held.
pub(crate) fn leave_light(opening: Opening, place: Place, hold: Hold) -> Result<Light, Memory>
    ensures { IfOk
        result
        (λ l. l
        ≡ Marks.mark
        instr.Leave
        place
        (Held.one_more (Held.outside opening hold))
        (Held.total (Held.outside opening hold))) }
{
    let outside = hold.outside(&opening);
    plain_light(Instr::Leave, place, outside.one_more()?, outside)
}
