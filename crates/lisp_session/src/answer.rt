ghost use Rattle.std.specs.Prelude.{◌≡◌, ℕ, List, IfOk, true};
ghost use Rattle.lisp_reader.specs.Tables.{tables_of};
ghost use Rattle.plain_program.specs.Program.{PlainProgram};
ghost use Rattle.plain_runs.specs.Run.{RunsAs};
ghost use Rattle.lisp_session.specs.Headline.{are_accepted, steps};
ghost use Rattle.lisp_session.specs.Answers.{Answers, LeftBy, Says, answer_status};
ghost use Rattle.lisp_session.specs.Programs.{Reads};
ghost use Rattle.lisp_session.specs.inside.Reading.{IsRefusal, program_in};

use crate::laws::{never_both, one_refusal};
use crate::program::{Reading, read};
use form_evaluator::run::{Finished, run_program};
use lisp_base::id::Place;
use lisp_base::memory::Memory;
use lisp_base::refusal::{Refusal, Rejection};
use lisp_base::sequence::Sequence;
use plain_runs::report::Report;
use std::alloc::Global;
use symbol_table::symbols::Symbols;
use symbol_table::texts::Texts;
use world_semantics::entry::Entry;

/// The points that a thread may take.
const STEPS: u32 = 100_000;

/// What a run left: the entries of its journal in ticket order, and its report, with the names and the string literals of
/// its program.
#[derive(Drop)]
pub struct RunLeft {
    pub symbols: Symbols,
    pub texts: Texts,
    pub entries: Sequence<Entry>,
    pub report: Report,
}

/// What is answered to the words and the bytes of a call.
#[derive(Drop)]
pub enum Answer {
    /// The bytes are a program, and this is what a run of it left.
    Ran(RunLeft),
    /// The bytes are refused for this reason at this place, a byte offset.
    Refused { refusal: Refusal, place: Place },
    /// The words are not accepted.
    RefusedWords,
}

impl Answer {
    /// The status of a call that writes this answer: 0 where the run ended and every thread has ended, 3 where it ended and
    /// some thread has not, 4 for bytes that are refused, and 2 for words that are not accepted.
    pub fn status(&self) -> u8
        ensures { result ≡ answer_status self.now }
    {
        match self {
            Answer::Ran(run) => run.report.status,
            Answer::Refused { .. } => 4,
            Answer::RefusedWords => 2,
        }
    }
}

/// What a run of a program that was read left.
fn left_by(reading: Reading, finished: Finished) -> RunLeft
    ensures { (bytes : List ℕ) (program : PlainProgram) → Reads bytes (tables_of reading.symbols reading.texts) program → RunsAs steps program finished.entries finished.report → LeftBy bytes result }
{
    RunLeft {
        symbols: reading.symbols,
        texts: reading.texts,
        entries: finished.entries,
        report: finished.report,
    }
}

/// Runs a program that was read.
fn run(alloc: Global, reading: &Reading) -> Result<Finished, Memory>
    ensures { IfOk result (λ finished. RunsAs steps (program_in reading.now) finished.entries finished.report) }
{
    run_program(
        alloc,
        reading.forms.as_slice(),
        reading.program.specials(),
        STEPS,
    )
}

/// What is answered where a program was read.
fn answer_reading(alloc: Global, reading: Reading) -> Result<Answer, Memory>
    ensures { (bytes : List ℕ) → Reads bytes (tables_of reading.symbols reading.texts) (program_in reading) → IfOk result (Says true bytes) }
{
    match run(alloc, &reading) {
        Ok(finished) => Ok(Answer::Ran(left_by(reading, finished))),
        Err(Memory) => Err(Memory),
    }
}

/// What is answered where bytes are refused.
fn answer_refusal(rejection: Rejection) -> Result<Answer, Memory>
    ensures { (bytes : List ℕ) → IsRefusal bytes rejection → IfOk result (Says true bytes) }
{
    match rejection {
        Rejection::Refused { refusal, place } => Ok(Answer::Refused { refusal, place }),
        Rejection::Memory => Err(Memory),
    }
}

/// What is answered to bytes.
fn answer_bytes(alloc: Global, bytes: &[u8]) -> Result<Answer, Memory>
    ensures { IfOk result (Says true bytes.now) }
{
    match read(alloc, bytes) {
        Ok(reading) => answer_reading(alloc, reading),
        Err(rejection) => answer_refusal(rejection),
    }
}

/// What is answered to these words and bytes: words that are not accepted are refused, and so are bytes that are no program;
/// a program is run. The only list of words that is accepted is the empty one.
pub fn answer_to(alloc: Global, words: &[String], bytes: &[u8]) -> Result<Answer, Memory>
    ensures { IfOk result (Answers (are_accepted words.now) bytes.now) }
{
    // The laws on which `complete` and `refuses` rest.
    never_both();
    one_refusal();
    if words.is_empty() {
        answer_bytes(alloc, bytes)
    } else {
        Ok(Answer::RefusedWords)
    }
}
