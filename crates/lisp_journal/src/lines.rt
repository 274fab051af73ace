ghost use Rattle.std.specs.Prelude.{◌≡◌, ℕ, List, IfOk};
ghost use Rattle.std.specs.String.{string_bytes};
ghost use Rattle.lisp_journal.specs.Lines.{WritesNext};

use lisp_base::memory::Memory;
use lisp_base::text_writer::TextWriter;
use std::alloc::Global;

/// A text that is written a line at a time.
pub trait Lines {
    /// What is left to write.
    ghost left: { Self → List ℕ };

    /// Writes the next line at the end of a text. It returns false, and nothing changes, exactly where nothing is left.
    fn write_next(&mut self, alloc: Global, text: &mut TextWriter) -> bool
        ensures { WritesNext (left self.old) (left self.new) text.old text.new result };
}

/// All that is left of a text. Where memory runs out, the lines that are left are not looked at.
pub(crate) fn whole_text<L: Lines>(alloc: Global, lines: &mut L) -> Result<String, Memory>
    ensures { IfOk result (λ text. string_bytes text ≡ L.left lines.old) }
{
    let mut text = TextWriter::new(alloc);
    while text.written().is_some() && lines.write_next(alloc, &mut text) {}
    text.finish()
}
