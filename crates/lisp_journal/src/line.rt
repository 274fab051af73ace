ghost use Rattle.std.specs.Prelude.{encode_utf8};
ghost use Rattle.std.specs.List.{flat_map};
ghost use Rattle.lisp_base.specs.Writing.{Wrote};
ghost use Rattle.lisp_base.specs.declared.value.Node.TheVariants.{Cond, Symbol};
ghost use Rattle.lisp_journal.specs.Line.{line_byte, on_line, value_text};

use crate::names::Names;
use lisp_base::condition::Condition;
use lisp_base::id::SymbolId;
use lisp_base::text_writer::TextWriter;
use lisp_base::value::{Node, Value};
use lisp_reader::print::print_value;
use std::alloc::Global;

/// Writes a character on a line, at the end of a text.
fn push_character(text: &mut TextWriter, character: char)
    ensures { Wrote text.old text.new (flat_map line_byte (encode_utf8 character)) }
{
    match character {
        '\n' => text.push_str("\\n"),
        _ => text.push(character),
    }
}

/// Writes characters on one line, at the end of a text.
pub(crate) fn push_on_line(text: &mut TextWriter, characters: &str)
    ensures { Wrote text.old text.new (on_line characters.now) }
{
    for character in characters.chars() {
        push_character(text, character);
    }
}

/// Writes the escaped text of a value on one line, at the end of a text.
pub(crate) fn push_value(alloc: Global, names: &Names, text: &mut TextWriter, value: Value)
    ensures { Wrote text.old text.new (value_text names.now.symbols.now names.now.texts.now value) }
{
    match print_value(alloc, &value, true, names.symbols, names.texts) {
        Ok(printed) => push_on_line(text, &printed),
        Err(_) => text.fill(),
    }
}

/// Writes the name of a symbol at the end of a text.
pub(crate) fn push_symbol(alloc: Global, names: &Names, text: &mut TextWriter, symbol: SymbolId)
    ensures { Wrote text.old text.new (value_text names.now.symbols.now names.now.texts.now (Symbol symbol)) }
{
    push_value(alloc, names, text, Value::symbol(symbol))
}

/// Writes a condition at the end of a text.
pub(crate) fn push_condition(
    alloc: Global,
    names: &Names,
    text: &mut TextWriter,
    condition: Condition,
)
    ensures { Wrote text.old text.new (value_text names.now.symbols.now names.now.texts.now (Cond condition)) }
{
    match Value::of(Node::Cond(condition)) {
        Some(value) => push_value(alloc, names, text, value),
        // every condition is in range
        None => unreachable!(),
    }
}
