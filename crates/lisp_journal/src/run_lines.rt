ghost use Rattle.std.specs.Prelude.{◌≡◌, ◌++◌};
ghost use Rattle.lisp_journal.specs.Journal.{journal_text};
ghost use Rattle.lisp_journal.specs.Report.{report_text};

use crate::journal::JournalLines;
use crate::lines::Lines;
use crate::names::Names;
use crate::report::ReportLines;
use lisp_base::text_writer::TextWriter;
use plain_runs::report::Report;
use std::alloc::Global;
use std::marker::Model;
use world_semantics::entry::Entry;

/// The lines of a journal that are left to write, and those of its report. Contracts see their text.
#[derive(Drop)]
pub struct RunLines<'a> {
    journal: JournalLines<'a>,
    report: ReportLines<'a>,
}

impl<'a> Model for RunLines<'a> {
    ghost use Rattle.std.specs.Prelude.{List, ℕ, ◌++◌};

    ghost Value = { List ℕ };

    ghost view = { λ r. r.journal ++ r.report };
}

impl<'a> RunLines<'a> {
    /// All lines of the journal of these entries and of this report, with these names.
    pub fn of(names: Names<'a>, entries: &'a [Entry], report: &'a Report) -> Self
        ensures { result ≡ journal_text names.entry.symbols.now names.entry.texts.now entries.now ++ report_text names.entry.symbols.now names.entry.texts.now report.now }
    {
        RunLines {
            journal: JournalLines::of(names, entries),
            report: ReportLines::of(names, report),
        }
    }
}

impl<'a> Lines for RunLines<'a> {
    ghost left = { λ r. r };

    fn write_next(&mut self, alloc: Global, text: &mut TextWriter) -> bool {
        if self.journal.write_next(alloc, text) {
            return true;
        }
        self.report.write_next(alloc, text)
    }
}
