ghost use Rattle.std.specs.Prelude.{◌≡◌, OnOk, OnErr, IsFalse, IsSome};
ghost use Rattle.std.specs.Result.{IfErr};
ghost use Rattle.lisp_session.specs.Answers.{answer_text};
ghost use Rattle.lisp_session.specs.inside.Ends.{StopsPage, TurnedPage};
ghost use Rattle.lisp_session.specs.Texts.{StopsWriting, WroteWhole};
ghost use Rattle.lisp_session.specs.declared.output.WriteFailure.TheVariants.{Fault};

use crate::answer::{Answer, RunLeft};
use lisp_base::id::Place;
use lisp_base::refusal::Refusal;
use lisp_base::text_writer::TextWriter;
use lisp_edge::answers::WriteAnswer;
use lisp_edge::sink::Sink;
use lisp_journal::lines::Lines;
use lisp_journal::names::Names;
use lisp_journal::refusal::{refused_words, write_refusal};
use lisp_journal::run_lines::RunLines;
use std::alloc::Global;

/// The length from which on a page is written, in bytes.
const PAGE: usize = 32_768;

/// Why a text was not written as a whole.
#[derive(Clone, Copy)]
pub enum WriteFailure {
    /// The sink failed.
    Fault,
    /// Memory ran out.
    Memory,
}

/// Writes a whole text, piece by piece.
fn write_text<K: Sink>(sink: &mut K, text: &[u8]) -> Result<(), WriteFailure>
    ensures whole { OnOk result (WroteWhole (K.held sink.old) (K.held sink.new) (K.faults sink.old) (K.faults sink.new) text.now) }
    ensures failure { OnErr result (StopsWriting (K.held sink.old) (K.held sink.new) (K.faults sink.old) (K.faults sink.new) text.now Fault) }
    ensures fault { IfErr result (λ failure. failure ≡ Fault) }
{
    let mut at = 0;
    while at < text.len() {
        match sink.write(&text[at..]) {
            WriteAnswer::Took(count) => at += count,
            WriteAnswer::Failed => return Err(WriteFailure::Fault),
        }
    }
    Ok(())
}

/// Writes a page, and empties it. Where memory ran out in it nothing is written.
fn turn_page<K: Sink>(sink: &mut K, page: &mut TextWriter) -> Result<(), WriteFailure>
    ensures whole { OnOk result (TurnedPage (K.held sink.old) (K.held sink.new) (K.faults sink.old) (K.faults sink.new) page.old page.new) }
    ensures failure { IfErr result (StopsPage (K.held sink.old) (K.held sink.new) (K.faults sink.old) (K.faults sink.new) page.old) }
{
    let Some(text) = page.written() else {
        return Err(WriteFailure::Memory);
    };
    match write_text(sink, text.as_bytes()) {
        Ok(()) => {
            page.clear();
            Ok(())
        }
        Err(failure) => Err(failure),
    }
}

/// Whether memory ran out in a page, or it is to be written.
fn is_full(page: &TextWriter) -> bool
    ensures { IsFalse result → IsSome page.now }
{
    match page.written() {
        Some(text) => text.len() >= PAGE,
        None => true,
    }
}

/// Writes the lines of a text, a page at a time.
fn send<K: Sink, L: Lines>(alloc: Global, sink: &mut K, lines: &mut L) -> Result<(), WriteFailure>
    ensures whole { OnOk result (WroteWhole (K.held sink.old) (K.held sink.new) (K.faults sink.old) (K.faults sink.new) (L.left lines.old)) }
    ensures failure { IfErr result (StopsWriting (K.held sink.old) (K.held sink.new) (K.faults sink.old) (K.faults sink.new) (L.left lines.old)) }
{
    let mut page = TextWriter::new(alloc);
    while lines.write_next(alloc, &mut page) {
        if is_full(&page) {
            turn_page(sink, &mut page)?;
        }
    }
    turn_page(sink, &mut page)
}

/// Writes journal and report of a run.
fn write_run<K: Sink>(alloc: Global, sink: &mut K, run: &RunLeft) -> Result<(), WriteFailure>
    ensures whole { OnOk result (WroteWhole (K.held sink.old) (K.held sink.new) (K.faults sink.old) (K.faults sink.new) (answer_text (Answer.Ran run.now))) }
    ensures failure { IfErr result (StopsWriting (K.held sink.old) (K.held sink.new) (K.faults sink.old) (K.faults sink.new) (answer_text (Answer.Ran run.now))) }
{
    let names = Names {
        symbols: &run.symbols,
        texts: &run.texts,
    };
    let mut lines = RunLines::of(names, run.entries.as_slice(), &run.report);
    send(alloc, sink, &mut lines)
}

/// Writes the line for a program that is refused.
fn write_refused<K: Sink>(
    alloc: Global,
    sink: &mut K,
    refusal: Refusal,
    place: Place,
) -> Result<(), WriteFailure>
    ensures whole { OnOk result (WroteWhole (K.held sink.old) (K.held sink.new) (K.faults sink.old) (K.faults sink.new) (answer_text (Answer.Refused refusal place))) }
    ensures failure { IfErr result (StopsWriting (K.held sink.old) (K.held sink.new) (K.faults sink.old) (K.faults sink.new) (answer_text (Answer.Refused refusal place))) }
{
    match write_refusal(alloc, refusal, place) {
        Ok(line) => write_text(sink, line.as_bytes()),
        Err(_) => Err(WriteFailure::Memory),
    }
}

/// Writes an answer: journal and report of a run line by line, in pages of some 32 KiB, so that beside the answer only a page
/// and a line are in memory; or the line of a refusal. It errs where the sink failed and where memory ran out; a front of the
/// text was written then, shorter than the text.
pub fn write_answer<K: Sink>(
    alloc: Global,
    sink: &mut K,
    answer: &Answer,
) -> Result<(), WriteFailure>
    ensures whole { OnOk result (WroteWhole (K.held sink.old) (K.held sink.new) (K.faults sink.old) (K.faults sink.new) (answer_text answer.now)) }
    ensures failure { IfErr result (StopsWriting (K.held sink.old) (K.held sink.new) (K.faults sink.old) (K.faults sink.new) (answer_text answer.now)) }
{
    match answer {
        Answer::Ran(run) => write_run(alloc, sink, run),
        Answer::Refused { refusal, place } => write_refused(alloc, sink, *refusal, *place),
        Answer::RefusedWords => write_text(sink, refused_words().as_bytes()),
    }
}
