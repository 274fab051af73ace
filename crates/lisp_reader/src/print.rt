//! How values are printed.
ghost use Rattle.std.specs.Prelude.{◌≡◌, IfOk, encode_utf8, slice_get};
ghost use Rattle.std.specs.List.{flat_map};
ghost use Rattle.std.specs.String.{string_bytes};
ghost use Rattle.lisp_base.specs.Writing.{Wrote};
ghost use Rattle.lisp_reader.specs.Printing.{class_name, class_text, condition_text, escaped_byte, escaped_string, object_text, printed, reason_text, string_text, symbol_text, time_text, zeros_before};

use lisp_base::condition::{Class, Condition};
use lisp_base::id::{Micros, StringId, SymbolId};
use lisp_base::memory::Memory;
use lisp_base::text_writer::TextWriter;
use lisp_base::value::{Node, Value};
use std::alloc::Global;
use symbol_table::symbols::Symbols;
use symbol_table::texts::Texts;

/// Microseconds in a second.
const SECOND: u64 = 1_000_000;

/// The text of a value: escaped, with strings as a program writes them, or plain, with strings as their characters. A
/// symbol or a string that is not in the tables prints as `?`.
pub fn print_value(
    alloc: Global,
    value: &Value,
    escape: bool,
    symbols: &Symbols,
    texts: &Texts,
) -> Result<String, Memory>
    ensures { IfOk result (λ text. string_bytes text ≡ printed escape symbols.now texts.now value.now) }
{
    let mut text = TextWriter::new(alloc);
    push_value(alloc, &mut text, *value, escape, symbols, texts);
    text.finish()
}

/// The characters of a string in `"`, with a `\` before `"` and `\`.
pub fn print_string(alloc: Global, characters: &str) -> Result<String, Memory>
    ensures { IfOk result (λ text. string_bytes text ≡ escaped_string characters.now) }
{
    let mut text = TextWriter::new(alloc);
    push_escaped(&mut text, characters);
    text.finish()
}

/// Writes a value at the end of a text, as `print_value` prints it.
pub fn push_value(
    alloc: Global,
    text: &mut TextWriter,
    value: Value,
    escape: bool,
    symbols: &Symbols,
    texts: &Texts,
)
    ensures { Wrote text.old text.new (printed escape symbols.now texts.now value) }
{
    match value.node() {
        Node::Int(number) => text.push_number(alloc, number),
        Node::Symbol(symbol) => push_symbol(text, symbol, symbols),
        Node::Text(string) => push_string(text, string, escape, texts),
        Node::Time(time) => push_time(alloc, text, time),
        Node::Cond(condition) => push_condition(text, condition, escape, texts),
        Node::Thread(thread) => push_object(alloc, text, "THREAD", thread.number()),
        Node::Mutex(mutex) => push_object(alloc, text, "MUTEX", mutex.number()),
        Node::Queue(queue) => push_object(alloc, text, "WAITQUEUE", queue.number()),
        Node::Timer(timer) => push_object(alloc, text, "TIMER", timer.number()),
    }
}

fn push_symbol(text: &mut TextWriter, symbol: SymbolId, symbols: &Symbols)
    ensures { Wrote text.old text.new (symbol_text symbols.now symbol) }
{
    match symbols.name(symbol) {
        Some(name) => text.push_str(name),
        None => text.push_str("?"),
    }
}

/// Writes a character of a string at the end of a text, with a `\` before it where it is `"` or `\`.
fn push_character(text: &mut TextWriter, character: char)
    ensures { Wrote text.old text.new (flat_map escaped_byte (encode_utf8 character)) }
{
    match character {
        '"' => text.push_str("\\\""),
        '\\' => text.push_str("\\\\"),
        _ => text.push(character),
    }
}

/// Writes the characters of a string at the end of a text, with a `\` before `"` and `\`.
fn push_characters(text: &mut TextWriter, characters: &str)
    ensures { Wrote text.old text.new (flat_map escaped_byte characters.now) }
{
    for character in characters.chars() {
        push_character(text, character);
    }
}

/// Writes a string at the end of a text, escaped.
fn push_escaped(text: &mut TextWriter, characters: &str)
    ensures { Wrote text.old text.new (escaped_string characters.now) }
{
    text.push_str("\"");
    push_characters(text, characters);
    text.push_str("\"");
}

/// Writes the string with a number at the end of a text.
fn push_string(text: &mut TextWriter, string: StringId, escape: bool, texts: &Texts)
    ensures { Wrote text.old text.new (string_text escape (slice_get texts.now string)) }
{
    match texts.text(string) {
        Some(characters) => {
            if escape {
                push_escaped(text, characters)
            } else {
                text.push_str(characters)
            }
        }
        None => text.push_str("?"),
    }
}

/// The zeros that make a number of microseconds below a second six digits long.
fn zeros_before(micros: u64) -> &'static str
    ensures { result.now ≡ zeros_before micros }
{
    if micros < 10 {
        "00000"
    } else if micros < 100 {
        "0000"
    } else if micros < 1_000 {
        "000"
    } else if micros < 10_000 {
        "00"
    } else if micros < 100_000 {
        "0"
    } else {
        ""
    }
}

/// Writes a time at the end of a text, in seconds with six digits after the dot.
fn push_time(alloc: Global, text: &mut TextWriter, time: Micros)
    ensures { Wrote text.old text.new (time_text time) }
{
    let rest = time.0 % SECOND;
    text.push_decimal(alloc, time.0 / SECOND);
    text.push_str(".");
    text.push_str(zeros_before(rest));
    text.push_decimal(alloc, rest);
}

/// Writes an object at the end of a text: its kind and its number.
fn push_object(alloc: Global, text: &mut TextWriter, kind: &str, number: u32)
    ensures { Wrote text.old text.new (object_text kind.now number) }
{
    text.push_str("#<");
    text.push_str(kind);
    text.push_str(" ");
    text.push_decimal(alloc, u64::from(number));
    text.push_str(">");
}

/// The name of a class.
fn name_of(class: Class) -> &'static str
    ensures { result.now ≡ class_name class }
{
    match class {
        Class::Condition => "CONDITION",
        Class::SeriousCondition => "SERIOUS-CONDITION",
        Class::Error => "ERROR",
        Class::StorageCondition => "STORAGE-CONDITION",
        Class::SimpleError => "SIMPLE-ERROR",
        Class::TypeError => "TYPE-ERROR",
        Class::ProgramError => "PROGRAM-ERROR",
        Class::ControlError => "CONTROL-ERROR",
        Class::CellError => "CELL-ERROR",
        Class::UnboundVariable => "UNBOUND-VARIABLE",
        Class::UndefinedFunction => "UNDEFINED-FUNCTION",
        Class::ArithmeticError => "ARITHMETIC-ERROR",
        Class::DivisionByZero => "DIVISION-BY-ZERO",
        Class::IntegerRange => "INTEGER-RANGE",
        Class::ThreadError => "THREAD-ERROR",
        Class::InterruptThreadError => "INTERRUPT-THREAD-ERROR",
        Class::JoinThreadError => "JOIN-THREAD-ERROR",
        Class::NotOwner => "NOT-OWNER",
        Class::RecursiveLock => "RECURSIVE-LOCK",
        Class::Timeout => "TIMEOUT",
        Class::DeadlineTimeout => "DEADLINE-TIMEOUT",
    }
}

/// Writes the text of a condition at the end of a text, where the condition has one.
fn push_reason(text: &mut TextWriter, reason: Option<StringId>, texts: &Texts)
    ensures { Wrote text.old text.new (reason_text texts.now reason) }
{
    if let Some(string) = reason {
        text.push_str(" ");
        push_string(text, string, true, texts);
    }
}

/// Writes a condition at the end of a text: its class, and its text where it has one.
fn push_class(text: &mut TextWriter, condition: Condition, texts: &Texts)
    ensures { Wrote text.old text.new (class_text texts.now condition) }
{
    text.push_str("#<");
    text.push_str(name_of(condition.class));
    push_reason(text, condition.text, texts);
    text.push_str(">");
}

/// Writes a condition at the end of a text, escaped or plain.
fn push_condition(text: &mut TextWriter, condition: Condition, escape: bool, texts: &Texts)
    ensures { Wrote text.old text.new (condition_text escape texts.now condition) }
{
    if escape {
        return push_class(text, condition, texts);
    }
    match condition.text {
        Some(string) => push_string(text, string, false, texts),
        None => push_class(text, condition, texts),
    }
}
