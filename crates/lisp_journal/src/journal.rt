ghost use Rattle.std.specs.Prelude.{◌≡◌, ◌++◌, codes, IfOk};
ghost use Rattle.std.specs.Fmt.{decimal};
ghost use Rattle.std.specs.String.{string_bytes};
ghost use Rattle.lisp_base.specs.Writing.{Wrote};
ghost use Rattle.lisp_base.specs.declared.value.Node.TheVariants.{Symbol};
ghost use Rattle.lisp_reader.specs.Printing.{escaped_string};
ghost use Rattle.lisp_journal.specs.Journal.{actor_text, cause_text, ending_text, printed_characters, printed_text, op_text, truth_text, reply_text, entry_text, journal_text};
ghost use Rattle.lisp_journal.specs.Line.{value_text};

use crate::line::{push_condition, push_on_line, push_symbol, push_value};
use crate::lines::{Lines, whole_text};
use crate::names::Names;
use lisp_base::condition::Condition;
use lisp_base::id::{Actor, SymbolId};
use lisp_base::memory::Memory;
use lisp_base::text_writer::TextWriter;
use lisp_reader::print;
use lisp_reader::print::print_string;
use std::alloc::Global;
use std::marker::Model;
use world_semantics::entry::Entry;
use world_semantics::op::{Op, Printed, Reply};
use world_semantics::phase::Ending;

fn push_actor(alloc: Global, text: &mut TextWriter, actor: Actor)
    ensures { Wrote text.old text.new (actor_text actor) }
{
    match actor {
        Actor::Thread(thread) => push_thread(alloc, text, thread.number()),
        Actor::Runner => text.push_str("clk"),
    }
}

fn push_thread(alloc: Global, text: &mut TextWriter, number: u32)
    ensures { Wrote text.old text.new (codes "t" ++ decimal number) }
{
    text.push_str("t");
    text.push_decimal(alloc, u64::from(number));
}

fn push_cause(alloc: Global, names: &Names, text: &mut TextWriter, cause: Option<Condition>)
    ensures { Wrote text.old text.new (cause_text names.now.symbols.now names.now.texts.now cause) }
{
    match cause {
        None => text.push_str("NIL"),
        Some(condition) => push_condition(alloc, names, text, condition),
    }
}

/// Writes how a thread ended at the end of a text.
pub(crate) fn push_ending(alloc: Global, names: &Names, text: &mut TextWriter, ending: Ending)
    ensures { Wrote text.old text.new (ending_text names.now.symbols.now names.now.texts.now ending) }
{
    match ending {
        Ending::Returned(value) => {
            text.push_str("returned ");
            push_value(alloc, names, text, value);
        }
        Ending::Aborted(cause) => {
            text.push_str("aborted ");
            push_cause(alloc, names, text, cause);
        }
    }
}

/// The characters that are printed.
fn characters_of(alloc: Global, names: &Names, printed: Printed) -> Result<String, Memory>
    ensures { IfOk result (λ characters. string_bytes characters ≡ printed_characters names.now.symbols.now names.now.texts.now printed) }
{
    match printed {
        Printed::Print(value) => {
            let mut characters = TextWriter::new(alloc);
            characters.push_str("\n");
            print::push_value(
                alloc,
                &mut characters,
                value,
                true,
                names.symbols,
                names.texts,
            );
            characters.push_str(" ");
            characters.finish()
        }
    }
}

/// What is printed, as a string in `"`.
fn string_of(alloc: Global, names: &Names, printed: Printed) -> Result<String, Memory>
    ensures { IfOk result (λ string. string_bytes string ≡ escaped_string (printed_characters names.now.symbols.now names.now.texts.now printed)) }
{
    let characters = characters_of(alloc, names, printed)?;
    print_string(alloc, &characters)
}

fn push_printed(alloc: Global, names: &Names, text: &mut TextWriter, printed: Printed)
    ensures { Wrote text.old text.new (printed_text names.now.symbols.now names.now.texts.now printed) }
{
    match string_of(alloc, names, printed) {
        Ok(string) => push_on_line(text, &string),
        Err(_) => text.fill(),
    }
}

fn push_op(alloc: Global, names: &Names, text: &mut TextWriter, op: Op)
    ensures { Wrote text.old text.new (op_text names.now.symbols.now names.now.texts.now op) }
{
    match op {
        Op::Get(symbol) => push_named(alloc, names, text, "get ", symbol),
        Op::Set(symbol, value) => {
            push_named(alloc, names, text, "set ", symbol);
            text.push_str(" ");
            push_value(alloc, names, text, value);
        }
        Op::Boundp(symbol) => push_named(alloc, names, text, "boundp ", symbol),
        Op::Out(printed) => {
            text.push_str("out ");
            push_printed(alloc, names, text, printed);
        }
        Op::Finish(ending) => {
            text.push_str("finish ");
            push_ending(alloc, names, text, ending);
        }
    }
}

/// Writes a word and the name of a symbol at the end of a text.
pub(crate) fn push_named(
    alloc: Global,
    names: &Names,
    text: &mut TextWriter,
    word: &str,
    symbol: SymbolId,
)
    ensures { Wrote text.old text.new (word.now ++ value_text names.now.symbols.now names.now.texts.now (Symbol symbol)) }
{
    text.push_str(word);
    push_symbol(alloc, names, text, symbol);
}

fn truth_word(truth: bool) -> &'static str
    ensures { result.now ≡ truth_text truth }
{
    if truth { "T" } else { "NIL" }
}

fn push_reply(alloc: Global, names: &Names, text: &mut TextWriter, reply: Reply)
    ensures { Wrote text.old text.new (reply_text names.now.symbols.now names.now.texts.now reply) }
{
    match reply {
        Reply::Okay => text.push_str("ok"),
        Reply::Value(value) => push_value(alloc, names, text, value),
        Reply::Unbound => text.push_str("unbound"),
        Reply::Truth(truth) => text.push_str(truth_word(truth)),
    }
}

fn push_entry(alloc: Global, names: &Names, text: &mut TextWriter, entry: &Entry)
    ensures { Wrote text.old text.new (entry_text names.now.symbols.now names.now.texts.now entry.now) }
{
    text.push_decimal(alloc, entry.ticket);
    text.push_str(" ");
    push_actor(alloc, text, entry.actor);
    text.push_str(" ");
    text.push_decimal(alloc, entry.point);
    text.push_str(" ");
    push_op(alloc, names, text, entry.op);
    text.push_str(" -> ");
    push_reply(alloc, names, text, entry.reply);
    text.push_str("\n");
}

/// The lines of a journal that are left to write: the first line, and one for each entry. Contracts see their text.
#[derive(Drop)]
pub struct JournalLines<'a> {
    names: Names<'a>,
    is_begun: bool,
    entries: &'a [Entry],
}

impl<'a> Model for JournalLines<'a> {
    ghost use Rattle.std.specs.Prelude.{List, ℕ};
    ghost use Rattle.lisp_journal.specs.Journal.{journal_left};

    ghost Value = { List ℕ };

    ghost view = { λ j. journal_left j.is_begun j.names.symbols.now j.names.texts.now j.entries.now };
}

impl<'a> JournalLines<'a> {
    /// All lines of the journal of these entries, with these names.
    pub fn of(names: Names<'a>, entries: &'a [Entry]) -> Self
        ensures { result ≡ journal_text names.entry.symbols.now names.entry.texts.now entries.now }
    {
        JournalLines {
            names,
            is_begun: false,
            entries,
        }
    }
}

impl<'a> Lines for JournalLines<'a> {
    ghost left = { λ j. j };

    fn write_next(&mut self, alloc: Global, text: &mut TextWriter) -> bool {
        if !self.is_begun {
            self.is_begun = true;
            text.push_str("sbcl-journal 1\n");
            return true;
        }
        match self.entries.split_first() {
            Some((entry, rest)) => {
                push_entry(alloc, &self.names, text, entry);
                self.entries = rest;
                true
            }
            None => false,
        }
    }
}

/// The text of a journal: its first line, and a line for each entry.
pub fn write_journal(alloc: Global, names: &Names, entries: &[Entry]) -> Result<String, Memory>
    ensures { IfOk result (λ text. string_bytes text ≡ journal_text names.now.symbols.now names.now.texts.now entries.now) }
{
    whole_text(alloc, &mut JournalLines::of(*names, entries))
}
