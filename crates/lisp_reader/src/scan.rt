ghost use Rattle.std.specs.Prelude.{◌≡◌, ◌<◌, ◌≤◌, ◌==◌, ◌&&◌, drop, length, slice_index, IfOk};
ghost use Rattle.std.specs.List.{prefix_len};
ghost use Rattle.std.specs.Str.{IsUtf8};
ghost use Rattle.lisp_reader.specs.Parts.{is_separator as is_separator_byte, is_token_letter as is_token_letter_byte};
ghost use Rattle.lisp_reader.specs.inside.Scanning.{IsScanned, is_on_line};

use lisp_base::memory::Memory;
use std::alloc::Global;

/// What kind of part begins at a place of a text.
#[derive(Drop)]
pub enum PartKind {
    /// `(`
    Open,
    /// `)`
    Close,
    /// `'`, or `#'` where the flag is set
    Quote(bool),
    /// A string literal, with its characters.
    Text(String),
    /// A string literal without an end.
    OpenText,
    /// A token of so many letters.
    Token(usize),
}

/// What was scanned at a place of a text, and where the text goes on.
#[derive(Drop)]
pub enum Scanned {
    /// A separator or a comment.
    Blank(usize),
    /// A part.
    Found(PartKind, usize),
}

/// Whether a byte separates parts.
fn is_separator(byte: u8) -> bool
    ensures { result ≡ is_separator_byte byte }
{
    byte == b' ' || byte == b'\t' || byte == b'\n' || byte == b'\r' || byte == 12
}

/// Whether a byte may belong to a token.
fn is_token_letter(byte: u8) -> bool
    ensures { result ≡ is_token_letter_byte byte }
{
    !(is_separator(byte)
        || byte == b';'
        || byte == b'"'
        || byte == b'('
        || byte == b')'
        || byte == b'\'')
}

/// How many letters of a token a text begins with.
fn token_len(text: &[u8]) -> usize
    ensures letters { result ≡ prefix_len is_token_letter_byte text.now }
    ensures within { result ≤ length text.now }
{
    text.iter()
        .take_while(|byte| is_token_letter(**byte))
        .count()
}

/// How many bytes there are before the end of the first line of a text.
fn line_len(text: &[u8]) -> usize
    ensures bytes { result ≡ prefix_len is_on_line text.now }
    ensures within { result ≤ length text.now }
{
    text.iter().take_while(|byte| **byte != b'\n').count()
}

/// Scans the string literal that begins at a place.
fn scan_literal(alloc: Global, text: &[u8], at: usize) -> Result<Scanned, Memory>
    requires inside { at < length text.now }
    requires quote { slice_index text.now at ≡ 34 }
    requires whole { IsUtf8 (drop at text.now) }
    ensures { IfOk result (IsScanned text.now at) }
{
    let mut characters = Vec::new(alloc);
    let mut escaped = false;
    let mut next = at + 1;
    while next < text.len() {
        let byte = text[next];
        next += 1;
        if byte == b'"' && !escaped {
            return match String::from_utf8(characters) {
                Ok(characters) => Ok(Scanned::Found(PartKind::Text(characters), next)),
                Err(_) => unreachable!(),
            };
        }
        escaped = byte == b'\\' && !escaped;
        if !escaped {
            characters.push(byte)?;
        }
    }
    Ok(Scanned::Found(PartKind::OpenText, next))
}

/// Whether a text begins with `#'`.
fn is_function_quote(text: &[u8]) -> bool
    ensures { result ≡ ((slice_index text.now 0 == 35) && (slice_index text.now 1 == 39)) }
{
    text.len() > 1 && text[0] == b'#' && text[1] == b'\''
}

/// Scans what begins at a place.
pub fn scan(alloc: Global, text: &[u8], at: usize) -> Result<Scanned, Memory>
    requires inside { at < length text.now }
    requires whole { IsUtf8 (drop at text.now) }
    ensures { IfOk result (IsScanned text.now at) }
{
    let byte = text[at];
    let rest = &text[at..];
    if is_separator(byte) {
        return Ok(Scanned::Blank(at + 1));
    }
    if is_function_quote(rest) {
        return Ok(Scanned::Found(PartKind::Quote(true), at + 2));
    }
    match byte {
        b';' => Ok(Scanned::Blank(at + line_len(rest))),
        b'"' => scan_literal(alloc, text, at),
        b'(' => Ok(Scanned::Found(PartKind::Open, at + 1)),
        b')' => Ok(Scanned::Found(PartKind::Close, at + 1)),
        b'\'' => Ok(Scanned::Found(PartKind::Quote(false), at + 1)),
        _ => {
            let len = token_len(rest);
            Ok(Scanned::Found(PartKind::Token(len), at + len))
        }
    }
}
