ghost use Rattle.std.specs.Prelude.{◌≡◌, IfOk};
ghost use Rattle.std.specs.String.{string_bytes};
ghost use Rattle.lisp_base.specs.Writing.{Wrote};
ghost use Rattle.lisp_journal.specs.Report.{name_text, phase_text, standing_text, frame_word, open_text, line_text, held_text, global_text, end_text, report_text};

use crate::journal::{push_ending, push_named};
use crate::line::push_value;
use crate::lines::{Lines, whole_text};
use crate::names::Names;
use lisp_base::memory::Memory;
use lisp_base::text_writer::TextWriter;
use lisp_base::value::Value;
use plain_runs::report::{FrameWord, OpenForm, PhaseReport, Report, ThreadLine};
use std::alloc::Global;
use std::marker::Model;
use world_semantics::global::Global as SpecialVariable;
use world_semantics::phase::Phase;

fn push_name(alloc: Global, names: &Names, text: &mut TextWriter, number: u64, name: Value)
    ensures { Wrote text.old text.new (name_text names.now.symbols.now names.now.texts.now number name) }
{
    if number == 0 {
        text.push_str("\"main thread\"")
    } else {
        push_value(alloc, names, text, name)
    }
}

fn push_phase(alloc: Global, names: &Names, text: &mut TextWriter, phase: Phase)
    ensures { Wrote text.old text.new (phase_text names.now.symbols.now names.now.texts.now phase) }
{
    match phase {
        Phase::Alive => text.push_str("alive"),
        Phase::Ended(ending) => push_ending(alloc, names, text, ending),
    }
}

fn push_standing(
    alloc: Global,
    names: &Names,
    text: &mut TextWriter,
    machine: PhaseReport,
    phase: Phase,
)
    ensures { Wrote text.old text.new (standing_text names.now.symbols.now names.now.texts.now machine phase) }
{
    match machine {
        PhaseReport::Ended => push_phase(alloc, names, text, phase),
        PhaseReport::OutOfPoints => text.push_str("out-of-points"),
        PhaseReport::Runnable => text.push_str("runnable"),
    }
}

fn push_line(alloc: Global, names: &Names, text: &mut TextWriter, number: u64, line: &ThreadLine)
    ensures { Wrote text.old text.new (line_text names.now.symbols.now names.now.texts.now number line.now) }
{
    text.push_str("thread ");
    text.push_decimal(alloc, number);
    text.push_str(" ");
    push_name(alloc, names, text, number, line.name);
    text.push_str(" ");
    push_standing(alloc, names, text, line.machine.phase, line.phase);
    text.push_str(" points ");
    text.push_decimal(alloc, line.machine.points);
    text.push_str("\n");
}

fn frame_word(kind: FrameWord) -> &'static str
    ensures { result.now ≡ frame_word kind }
{
    match kind {
        FrameWord::Bind => "bind",
    }
}

fn push_open_form(alloc: Global, text: &mut TextWriter, form: &OpenForm)
    ensures { Wrote text.old text.new (open_text form.now) }
{
    text.push_str("  open ");
    text.push_str(frame_word(form.kind));
    text.push_str(" ");
    text.push_decimal(alloc, u64::from(form.place.0));
    text.push_str("\n");
}

fn push_held(alloc: Global, names: &Names, text: &mut TextWriter, value: Option<Value>)
    ensures { Wrote text.old text.new (held_text names.now.symbols.now names.now.texts.now value) }
{
    match value {
        None => text.push_str("unbound"),
        Some(value) => push_value(alloc, names, text, value),
    }
}

fn push_global(alloc: Global, names: &Names, text: &mut TextWriter, global: &SpecialVariable)
    ensures { Wrote text.old text.new (global_text names.now.symbols.now names.now.texts.now global.now) }
{
    push_named(alloc, names, text, "global ", global.symbol);
    text.push_str(" ");
    push_held(alloc, names, text, global.value);
    text.push_str("\n");
}

/// Writes the last lines of a report: its status, and its end.
fn push_end(alloc: Global, text: &mut TextWriter, status: u8)
    ensures { Wrote text.old text.new (end_text status) }
{
    text.push_str("status ");
    text.push_decimal(alloc, u64::from(status));
    text.push_str("\nend\n");
}

/// The lines of a report that are left to write. Contracts see their text.
#[derive(Drop)]
pub struct ReportLines<'a> {
    names: Names<'a>,
    is_begun: bool,
    /// The open forms of the thread whose line was written last.
    forms: &'a [OpenForm],
    threads: &'a [ThreadLine],
    /// The number of the first of these threads.
    number: u64,
    globals: &'a [SpecialVariable],
    status: u8,
    is_done: bool,
}

impl<'a> Model for ReportLines<'a> {
    ghost use Rattle.std.specs.Prelude.{List, ℕ, ◌+◌, ◌^◌, ◌<◌, length};
    ghost use Rattle.lisp_journal.specs.Report.{report_left};

    ghost Value = { List ℕ };

    ghost view = { λ r. report_left r.is_begun r.is_done r.names.symbols.now r.names.texts.now r.forms.now r.number r.threads.now r.globals.now r.status };

    ghost invariant = { λ r. r.number + length r.threads.now < 2 ^ 64 };
}

impl<'a> ReportLines<'a> {
    /// All lines of a report, with these names.
    pub fn of(names: Names<'a>, report: &'a Report) -> Self
        ensures { result ≡ report_text names.entry.symbols.now names.entry.texts.now report.now }
    {
        ReportLines {
            names,
            is_begun: false,
            forms: &[],
            threads: report.threads.as_slice(),
            number: 0,
            globals: report.globals.as_slice(),
            status: report.status,
            is_done: false,
        }
    }
}

impl<'a> Lines for ReportLines<'a> {
    ghost left = { λ r. r };

    fn write_next(&mut self, alloc: Global, text: &mut TextWriter) -> bool {
        if !self.is_begun {
            self.is_begun = true;
            text.push_str("report 1\n");
            return true;
        }
        if let Some((form, rest)) = self.forms.split_first() {
            push_open_form(alloc, text, form);
            self.forms = rest;
            return true;
        }
        if let Some((line, rest)) = self.threads.split_first() {
            push_line(alloc, &self.names, text, self.number, line);
            self.forms = line.machine.frames.as_slice();
            self.threads = rest;
            self.number += 1;
            return true;
        }
        if let Some((global, rest)) = self.globals.split_first() {
            push_global(alloc, &self.names, text, global);
            self.globals = rest;
            return true;
        }
        if !self.is_done {
            push_end(alloc, text, self.status);
            self.is_done = true;
            return true;
        }
        false
    }
}

/// The text of a report: the lines of each thread by number, a line for each special variable, and the status.
pub fn write_report(alloc: Global, names: &Names, report: &Report) -> Result<String, Memory>
    ensures { IfOk result (λ text. string_bytes text ≡ report_text names.now.symbols.now names.now.texts.now report.now) }
{
    whole_text(alloc, &mut ReportLines::of(*names, report))
}
