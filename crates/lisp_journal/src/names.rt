use symbol_table::symbols::Symbols;
use symbol_table::texts::Texts;

/// The names of symbols and the texts of string literals, with which values are written.
#[derive(Clone, Copy, Debug)]
pub struct Names<'a> {
    pub symbols: &'a Symbols,
    pub texts: &'a Texts,
}
