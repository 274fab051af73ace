//! Whether code is valid: one pass over its instructions, each of which is looked at alone.
ghost use Rattle.std.specs.Prelude.{◌≡◌, ◌↔◌, ◌<◌, ◌≤◌, ◌+◌, ◌^◌, IsTrue, All, List, [], ◌∷◌, ℕ, length, map, get_or};
ghost use Rattle.lisp_program.specs.WellMade.{IsOneOf};
ghost use Rattle.lisp_code.specs.Parts.{row_of, rows_of};
ghost use Rattle.lisp_code.specs.Validity.{AreFine, IsActNumbered, IsFine, IsFunction, IsInRange, IsKnown, IsNoJump, IsOpeningNamed, IsValid, Lands, Lies, act_goings, clause_going, goings, is_exit, left_by, most_operands, on, question_goings, takes_of};
ghost use Rattle.lisp_code.specs.inside.Lying.{EachLies};
ghost use Rattle.lisp_code.specs.declared.instr.Instr.TheVariants.{Leave};

use crate::code::{CodeParts, FunctionCode};
use crate::instr::{Clause, Instr};
use crate::operands::{
    act_leaves, act_takes, height_after, height_inside, is_exit, left_by, opening_takes, replaced,
    takes_of,
};
use form_points::act::{Act, Opening, Question};
use lisp_base::id::SymbolId;

/// No call has more operands, nor more variables.
const MOST_OPERANDS: u32 = 128;

/// Where an instruction goes on, and with how many operands.
#[derive(Clone, Copy)]
struct Landing {
    at: usize,
    height: u64,
}

impl Landing {
    /// At this position, with so many operands before it.
    fn of(to: u32, height: u64) -> Self
        ensures { result ≡ record { at = to; height = height } }
    {
        Landing {
            at: to as usize,
            height,
        }
    }

    /// At the position after this one, with so many operands before it.
    fn after(at: usize, height: u64) -> Self
        requires { at + 1 < 2 ^ 64 }
        ensures { result ≡ record { at = at + 1; height = height } }
    {
        Landing { at: at + 1, height }
    }
}

/// How many operands there are before an instruction, 0 where none is told.
fn height_at(parts: &CodeParts, at: usize) -> u32
    ensures { result ≡ get_or parts.now.heights at 0 }
{
    parts.heights.get(at).copied().unwrap_or(0)
}

/// Whether a position is inside the code, with so many operands before it.
fn lies(parts: &CodeParts, to: Landing) -> bool
    ensures { IsTrue result ↔ Lies parts.now (on to.at to.height) }
{
    to.at < parts.instrs.len() && u64::from(height_at(parts, to.at)) == to.height
}

/// Whether each of these clauses begins where it should.
fn clauses_lie(parts: &CodeParts, clauses: &[Clause], height: u32) -> bool
    ensures { IsTrue result ↔ EachLies parts.now (map (clause_going height) clauses.now) }
{
    for clause in clauses {
        let operands = u64::from(clause.is_given) + u64::from(height);
        if !lies(parts, Landing::of(clause.start, operands)) {
            return false;
        }
    }
    true
}

/// The clauses in a row, none where there is no such row.
pub(crate) fn row_at(handlers: &[Vec<Clause>], row: u32) -> &[Clause]
    ensures { result.now ≡ row_of (rows_of handlers.now) row }
{
    match handlers.get(row as usize) {
        Some(clauses) => clauses.as_slice(),
        None => &[],
    }
}

/// Whether an act goes on where it should.
fn act_goes_on(parts: &CodeParts, at: usize, height: u32, act: &Act) -> bool
    requires { at + 1 < 2 ^ 64 }
    ensures { IsTrue result ↔ EachLies parts.now (act_goings (is_exit act.now) act.now at height) }
{
    let next = Landing::after(at, replaced(act_takes(act), act_leaves(act), height));
    is_exit(act) || lies(parts, next)
}

/// Whether a question goes on where it should.
fn question_goes_on(parts: &CodeParts, at: usize, height: u32, question: &Question) -> bool
    requires { at + 1 < 2 ^ 64 }
    ensures { IsTrue result ↔ EachLies parts.now (question_goings question.now at height) }
{
    let next = Landing::after(at, height_after(question, height));
    match question {
        Question::EndThread => true,
        Question::Print(_)
        | Question::Read(_)
        | Question::Write(_)
        | Question::IsBound(_)
        | Question::Define(_)
        | Question::CompareAndSwap(_)
        | Question::Serve(..) => lies(parts, next),
    }
}

/// Whether an instruction with so many operands before it goes on inside the code, with as many as are expected there.
fn goes_on(parts: &CodeParts, at: usize, height: u32, instr: &Instr) -> bool
    requires { at + 1 < 2 ^ 64 }
    ensures { IsTrue result ↔ EachLies parts.now (goings parts.now.handlers at height instr.now) }
{
    let here = u64::from(height);
    let lower = here.saturating_sub(1);
    match instr {
        Instr::Do(act) => act_goes_on(parts, at, height, act),
        Instr::Call(_, count) => {
            let called = replaced(u64::from(*count), 1, height);
            lies(parts, Landing::after(at, called))
        }
        Instr::Ask(question) => question_goes_on(parts, at, height, question),
        Instr::Test(question, to) => lies(parts, Landing::after(at, here))
            && lies(parts, Landing::of(*to, height_after(question, height))),
        Instr::Branch(to) => lies(parts, Landing::after(at, lower))
            && lies(parts, Landing::of(*to, lower)),
        Instr::LoopTest(to) => lies(parts, Landing::after(at, lower))
            && lies(parts, Landing::of(*to, here)),
        Instr::Enter(opening, back) => {
            let after = replaced(opening_takes(opening), 1, height);
            lies(parts, Landing::after(at, height_inside(opening, height)))
                && lies(parts, Landing::of(*back, after))
        }
        Instr::EnterProtect(cleanup) => lies(parts, Landing::after(at, here))
            && lies(parts, Landing::of(*cleanup, here)),
        Instr::EnterHandler(row) => lies(parts, Landing::after(at, here))
            && clauses_lie(parts, row_at(&parts.handlers, *row), height),
        Instr::Jump(to) | Instr::LeaveHandler(to) => lies(parts, Landing::of(*to, here)),
        Instr::LeaveCleanup => lies(parts, Landing::after(at, here)),
        Instr::Leave | Instr::LeaveProtect => true,
    }
}

/// Whether a symbol is one of these.
fn is_one_of(symbol: SymbolId, symbols: &[SymbolId]) -> bool
    ensures { IsTrue result ↔ IsOneOf symbol symbols.now }
{
    for other in symbols {
        if symbol == *other {
            return true;
        }
    }
    false
}

/// Whether the variable that an act names is one that a call may have.
fn is_numbered(act: &Act) -> bool
    ensures { IsTrue result ↔ IsActNumbered most_operands act.now }
{
    match act {
        Act::ReadLocal(variable)
        | Act::WriteLocal(variable)
        | Act::BindLocal(variable, _)
        | Act::ReturnFrom(variable) => *variable < MOST_OPERANDS,
        Act::Push(_)
        | Act::PushFunction(_)
        | Act::PushThread
        | Act::ForgetLocal
        | Act::Discard
        | Act::Apply(_)
        | Act::Call(..)
        | Act::Throw
        | Act::Signal(_)
        | Act::AbortThread
        | Act::ReturnFromThread => true,
    }
}

/// Whether a special variable that a question names is one of these.
fn is_known(specials: &[SymbolId], question: &Question) -> bool
    ensures { IsTrue result ↔ IsKnown specials.now question.now }
{
    match question {
        Question::Read(symbol)
        | Question::Write(symbol)
        | Question::IsBound(symbol)
        | Question::Define(symbol)
        | Question::CompareAndSwap(symbol) => is_one_of(*symbol, specials),
        Question::Print(_) | Question::Serve(..) | Question::EndThread => true,
    }
}

/// Whether what a point names that opens a frame is a variable that a call may have, or one of these special variables.
fn is_named(specials: &[SymbolId], opening: &Opening) -> bool
    ensures { IsTrue result ↔ IsOpeningNamed most_operands specials.now opening.now }
{
    match opening {
        Opening::Bind(symbol, _) => is_one_of(*symbol, specials),
        Opening::Block(variable)
        | Opening::WithoutInterrupts(variable)
        | Opening::AllowWithInterrupts(variable) => *variable < MOST_OPERANDS,
        Opening::Catch | Opening::WithInterrupts | Opening::Deadline { .. } => true,
    }
}

/// Whether what an instruction names is there: a variable, a special variable, a function, a row of clauses.
fn in_range(parts: &CodeParts, instr: &Instr) -> bool
    ensures { IsTrue result ↔ IsInRange parts.now instr.now }
{
    match instr {
        Instr::Do(act) => is_numbered(act),
        Instr::Call(function, _) => (*function as usize) < parts.functions.len(),
        Instr::Ask(question) | Instr::Test(question, _) => is_known(&parts.specials, question),
        Instr::Enter(opening, _) => is_named(&parts.specials, opening),
        Instr::EnterHandler(row) => (*row as usize) < parts.handlers.len(),
        Instr::Branch(_)
        | Instr::LoopTest(_)
        | Instr::Jump(_)
        | Instr::EnterProtect(_)
        | Instr::Leave
        | Instr::LeaveProtect
        | Instr::LeaveCleanup
        | Instr::LeaveHandler(_) => true,
    }
}

/// Whether no jump stands at a position.
fn is_no_jump(instrs: &[Instr], at: usize) -> bool
    ensures { IsTrue result ↔ IsNoJump (get_or instrs.now at Leave) }
{
    !matches!(instrs.get(at), Some(Instr::Jump(_)))
}

/// Whether an instruction is no jump, or one that goes on, or lands on no jump.
fn lands(parts: &CodeParts, at: usize, instr: &Instr) -> bool
    ensures { IsTrue result ↔ Lands parts.now at instr.now }
{
    match instr {
        Instr::Jump(to) => at < *to as usize || is_no_jump(&parts.instrs, *to as usize),
        Instr::Do(_)
        | Instr::Call(..)
        | Instr::Ask(_)
        | Instr::Test(..)
        | Instr::Branch(_)
        | Instr::LoopTest(_)
        | Instr::Enter(..)
        | Instr::EnterProtect(_)
        | Instr::EnterHandler(_)
        | Instr::Leave
        | Instr::LeaveProtect
        | Instr::LeaveCleanup
        | Instr::LeaveHandler(_) => true,
    }
}

/// Whether an instruction finds what it takes, and what it leaves is not too much.
fn fits(instr: &Instr, height: u32) -> bool
    ensures { IsTrue result ↔ ((takes_of instr.now ≤ height) × (left_by instr.now height ≤ most_operands)) }
{
    takes_of(instr) <= height.into() && left_by(instr, height) <= MOST_OPERANDS.into()
}

/// Whether what an instruction names is there, and it lands on no jump where it goes back.
fn refers(parts: &CodeParts, at: usize, instr: &Instr) -> bool
    ensures { IsTrue result ↔ (IsInRange parts.now instr.now × Lands parts.now at instr.now) }
{
    in_range(parts, instr) && lands(parts, at, instr)
}

/// Whether an instruction at a position, before which there are so many operands, is as it should be.
#[tactic(auto, using(crate::proofs::Each::all_lie, crate::proofs::Each::each_lies))]
fn is_fine(parts: &CodeParts, at: usize, height: u32, instr: &Instr) -> bool
    requires { at + 1 < 2 ^ 64 }
    ensures { IsTrue result ↔ IsFine parts.now at height instr.now }
{
    if !fits(instr, height) {
        return false;
    }
    goes_on(parts, at, height, instr) && refers(parts, at, instr)
}

/// Whether each instruction is as it should be, where there are as many heights.
fn are_fine(parts: &CodeParts) -> bool
    requires { length parts.now.heights ≡ length parts.now.instrs }
    ensures { IsTrue result ↔ AreFine parts.now 0 parts.now.heights parts.now.instrs }
{
    let instrs = parts.instrs.as_slice();
    let heights = parts.heights.as_slice();
    for at in 0..instrs.len() {
        if !is_fine(parts, at, heights[at], &instrs[at]) {
            return false;
        }
    }
    true
}

/// Whether a function begins inside the code without an operand, and holds at least its arguments, and not too much.
fn is_function(parts: &CodeParts, function: &FunctionCode) -> bool
    ensures { IsTrue result ↔ IsFunction parts.now function.now }
{
    lies(parts, Landing::of(function.entry, 0))
        && function.params <= function.height
        && function.height <= MOST_OPERANDS
}

/// Whether each of these functions is as it should be.
fn are_functions(parts: &CodeParts, functions: &[FunctionCode]) -> bool
    ensures { IsTrue result ↔ All (IsFunction parts.now) functions.now }
{
    for function in functions {
        if !is_function(parts, function) {
            return false;
        }
    }
    true
}

/// Whether each instruction has a place, and so many operands before it.
fn is_even(parts: &CodeParts) -> bool
    ensures { IsTrue result ↔ ((length parts.now.places ≡ length parts.now.instrs) × (length parts.now.heights ≡ length parts.now.instrs)) }
{
    parts.places.len() == parts.instrs.len() && parts.heights.len() == parts.instrs.len()
}

/// Whether these are the parts of valid code.
pub(crate) fn is_valid(parts: &CodeParts) -> bool
    ensures { IsTrue result ↔ IsValid parts.now }
{
    if !is_even(parts) || !lies(parts, Landing { at: 0, height: 0 }) {
        return false;
    }
    are_fine(parts) && are_functions(parts, &parts.functions)
}
