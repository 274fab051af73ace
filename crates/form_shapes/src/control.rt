ghost use Rattle.std.specs.Prelude.{◌≡◌, false};
ghost use Rattle.form_shapes.specs.Controls;

use lisp_base::id::StringId;
use symbol_table::texts::Texts;

/// The text of a string literal; the empty text where the table has no such literal.
pub fn text_of(texts: &Texts, text: StringId) -> &str
    ensures { result.now ≡ Controls.text_of texts.now text }
{
    texts.text(text).unwrap_or("")
}

/// Whether a text has a `~`.
pub fn has_tilde(text: &str) -> bool
    ensures { result ≡ Controls.has_tilde text.now }
{
    text.as_bytes().iter().any(|byte| *byte == b'~')
}

/// Whether a directive takes an argument.
fn takes_argument(letter: u8) -> bool
    ensures { result ≡ Controls.takes_argument letter }
{
    letter == b'a'
        || letter == b'A'
        || letter == b's'
        || letter == b'S'
        || letter == b'd'
        || letter == b'D'
}

/// Whether a directive takes none.
fn takes_nothing(letter: u8) -> bool
    ensures { result ≡ Controls.takes_nothing letter }
{
    letter == b'%' || letter == b'~'
}

/// How many arguments a control takes, where all its directives are known.
pub fn taken_by(control: &str) -> Option<usize>
    ensures { result ≡ Controls.taken_by false control.now }
{
    let mut taken: usize = 0;
    let mut is_directive = false;
    for byte in control.as_bytes() {
        if !is_directive {
            is_directive = *byte == b'~';
        } else if takes_argument(*byte) {
            taken += 1;
            is_directive = false;
        } else if takes_nothing(*byte) {
            is_directive = false;
        } else {
            return None;
        }
    }
    if is_directive { None } else { Some(taken) }
}
