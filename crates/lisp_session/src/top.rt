ghost use Rattle.std.specs.Prelude.{◌≡◌, ℕ, List, Option, true, false};
ghost use Rattle.lisp_session.specs.Answers.{Says};
ghost use Rattle.lisp_session.specs.inside.Ends.{AnswersAs, EndsAs, WritesAs, number_of, outcome_of};
ghost use Rattle.lisp_session.specs.Headline.{Promise, are_accepted};

use crate::answer::{Answer, answer_to};
use crate::input::{ReadFailure, read_text};
use crate::laws::never_both;
use crate::output::{WriteFailure, write_answer};
use lisp_edge::clock::Clock;
use lisp_edge::gate::Gate;
use lisp_edge::sink::Sink;
use lisp_edge::source::Source;
use std::alloc::Global;

/// How a top call ends.
#[derive(Clone, Copy)]
pub(crate) enum Outcome {
    /// An answer with this status was written as a whole.
    Wrote(u8),
    /// The source failed.
    ReadFault,
    /// The sink failed.
    WriteFault,
    /// Memory ran out.
    Memory,
}

/// Writes an answer.
fn write<K: Sink>(alloc: Global, sink: &mut K, answer: &Answer) -> Outcome
    ensures { WritesAs (K.held sink.old) (K.held sink.new) (K.faults sink.old) (K.faults sink.new) answer.now result }
{
    match write_answer(alloc, sink, answer) {
        Ok(()) => Outcome::Wrote(answer.status()),
        Err(WriteFailure::Fault) => Outcome::WriteFault,
        Err(WriteFailure::Memory) => Outcome::Memory,
    }
}

/// Answers words and bytes.
fn answer<K: Sink>(alloc: Global, words: &[String], bytes: Vec<u8>, sink: &mut K) -> Outcome
    ensures { AnswersAs (are_accepted words.now) bytes.items (K.held sink.old) (K.held sink.new) (K.faults sink.old) (K.faults sink.new) result }
{
    let answered = answer_to(alloc, words, bytes.as_slice());
    drop(bytes);
    match answered {
        Ok(answer) => write(alloc, sink, &answer),
        Err(_) => Outcome::Memory,
    }
}

/// The outcome where a read stopped.
fn stopped(failure: ReadFailure) -> Outcome
    ensures { result ≡ outcome_of failure }
{
    match failure {
        ReadFailure::Fault => Outcome::ReadFault,
        ReadFailure::Memory => Outcome::Memory,
    }
}

/// Answers a call. Where the words are not accepted nothing is read.
fn call<S: Source, K: Sink>(
    alloc: Global,
    words: &[String],
    source: &mut S,
    sink: &mut K,
) -> Outcome
    ensures ends { EndsAs (are_accepted words.now) (S.left source.old) (S.left source.new) (S.faults source.old) (S.faults source.new) (K.held sink.old) (K.held sink.new) (K.faults sink.old) (K.faults sink.new) result }
    ensures unread { are_accepted words.now ≡ false → source.new ≡ source.old }
{
    if !words.is_empty() {
        return answer(alloc, words, Vec::new(alloc), sink);
    }
    match read_text(alloc, source) {
        Ok(bytes) => answer(alloc, words, bytes, sink),
        Err(failure) => stopped(failure),
    }
}

/// The number of an outcome.
fn status_of(outcome: Outcome) -> u8
    ensures { result ≡ number_of outcome }
{
    match outcome {
        Outcome::Wrote(status) => status,
        Outcome::ReadFault => 5,
        Outcome::WriteFault => 6,
        Outcome::Memory => 7,
    }
}

/// Runs the program that the source has left, with one worker, and writes its journal and report, or one line that says why
/// there is no run: it reads, calls `answer_to`, and then `write_answer`. The only list of words that is accepted is the empty
/// one. It returns the status: 0 where the run ended and every thread has ended, 3 where it ended and some thread has not, 2 for
/// words that are not accepted, 4 for a text that is refused, 5 where the source failed, 6 where the sink failed, and 7 where
/// memory ran out. It always returns.
pub fn run_one<S: Source, K: Sink, C: Clock>(
    alloc: Global,
    words: &[String],
    source: &mut S,
    sink: &mut K,
    _clock: &C,
) -> u8
    ensures promise { Promise (are_accepted words.now) (S.left source.old) (S.left source.new) (S.faults source.old) (S.faults source.new) (K.held sink.old) (K.held sink.new) (K.faults sink.old) (K.faults sink.new) result }
    ensures unread { are_accepted words.now ≡ false → source.new ≡ source.old }
{
    // The law that no bytes are both a program and refused, on which `complete` and `refuses` rest.
    never_both();
    status_of(call(alloc, words, source, sink))
}

/// Does what `run_one` does, until there are workers to share the work. The gate is not entered yet.
pub fn run_top<S: Source, K: Sink, C: Clock, G: Gate>(
    alloc: Global,
    words: &[String],
    source: &mut S,
    sink: &mut K,
    clock: &C,
    _gate: &G,
) -> u8
    ensures promise { Promise (are_accepted words.now) (S.left source.old) (S.left source.new) (S.faults source.old) (S.faults source.new) (K.held sink.old) (K.held sink.new) (K.faults sink.old) (K.faults sink.new) result }
    ensures unread { are_accepted words.now ≡ false → source.new ≡ source.old }
{
    run_one(alloc, words, source, sink, clock)
}
