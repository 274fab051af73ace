ghost use Rattle.std.specs.Prelude.{◌≡◌, IfOk};
ghost use Rattle.std.specs.String.{string_bytes};
ghost use Rattle.lisp_journal.specs.Refusal.{refusal_line, words_line};

use lisp_base::id::Place;
use lisp_base::memory::Memory;
use lisp_base::refusal::Refusal;
use lisp_base::text_writer::TextWriter;
use std::alloc::Global;

/// The line for words that are not accepted.
pub fn refused_words() -> &'static str
    ensures { result.now ≡ words_line }
{
    "refused words\n"
}

/// The line for a program that is refused: the number of the refusal, its name, and the place.
pub fn write_refusal(alloc: Global, refusal: Refusal, place: Place) -> Result<String, Memory>
    ensures { IfOk result (λ text. string_bytes text ≡ refusal_line refusal place) }
{
    let mut text = TextWriter::new(alloc);
    text.push_str("refused ");
    text.push_decimal(alloc, u64::from(refusal.number()));
    text.push_str(" ");
    text.push_str(refusal.name());
    text.push_str(" at ");
    text.push_decimal(alloc, u64::from(place.0));
    text.push_str("\n");
    text.finish()
}
