ghost use Rattle.std.specs.Prelude.{◌≡◌, ◌<◌, ◌^◌, ◌∷◌, ◌++◌, [], ℕ, List, IfOk, IsTrue, OnOk, drop, length, map, string_bytes, take};
ghost use Rattle.std.specs.Char.{is_ascii};
ghost use Rattle.std.specs.List.{list_all};
ghost use Rattle.std.specs.Result.{IfErr};
ghost use Rattle.std.specs.Str.{IsUtf8};
ghost use Rattle.lisp_base.specs.declared.refusal.Refusal.TheVariants.{TooManySymbols, TooManyTexts};
ghost use Rattle.lisp_reader.specs.Gathering.{at_end, gathered as gathered_of};
ghost use Rattle.lisp_reader.specs.inside.Marking.{IsEndRefusal, IsInterned, IsLeaf, IsNoLeaf, IsNotInterned, IsRefusalOf, RefusedPart, TookPart, faultless, mark_of};
ghost use Rattle.lisp_reader.specs.Meanings;
ghost use Rattle.lisp_reader.specs.Parts.{Opens as OpensPart, Closes, Quotes, Literal, Token', parts_of};
ghost use Rattle.lisp_reader.specs.inside.Scanning.{part_of};
ghost use Rattle.lisp_reader.specs.Tables.{Tables, tables_of};

use crate::meaning::{Meaning, letters_from, meaning_of};
use crate::opens::{Opening, Opens};
use crate::scan::{PartKind, Scanned, scan};
use lisp_base::id::{Micros, Place, StringId, SymbolId};
use lisp_base::memory::Memory;
use lisp_base::refusal::{Refusal, Rejection};
use lisp_data::datum::Leaf;
use std::alloc::Global;
use symbol_table::error::InternError;
use symbol_table::symbols::Symbols;
use symbol_table::texts::Texts;

/// What a part of a text is, with the numbers of symbols and literals.
#[derive(Clone, Copy)]
pub enum MarkKind {
    /// A list opens.
    Open,
    /// A list closes.
    Close,
    /// A quote, with the symbol that it stands for.
    Quote(SymbolId),
    /// A leaf.
    ALeaf(Leaf),
}

/// A part of a text, with the place of its first byte.
#[derive(Clone, Copy)]
pub struct Mark {
    pub kind: MarkKind,
    pub place: Place,
}

/// The symbol with a name that is used at a place.
fn symbol(symbols: &mut Symbols, name: &str, place: Place) -> Result<SymbolId, Rejection>
    ensures interned { IfOk result (IsInterned symbols.old symbols.new name.now) }
    ensures refused { IfErr result (IsNotInterned TooManySymbols place symbols.old symbols.new name.now) }
{
    match symbols.intern(name) {
        Ok(id) => Ok(id),
        Err(InternError::TooMany) => Err(Rejection::at(Refusal::TooManySymbols, place)),
        Err(InternError::Memory) => Err(Rejection::Memory),
    }
}

/// The string literal with a text that is used at a place.
fn text(texts: &mut Texts, characters: &str, place: Place) -> Result<StringId, Rejection>
    ensures interned { IfOk result (IsInterned texts.old texts.new characters.now) }
    ensures refused { IfErr result (IsNotInterned TooManyTexts place texts.old texts.new characters.now) }
{
    match texts.intern(characters) {
        Ok(id) => Ok(id),
        Err(InternError::TooMany) => Err(Rejection::at(Refusal::TooManyTexts, place)),
        Err(InternError::Memory) => Err(Rejection::Memory),
    }
}

/// Makes a text that of these letters in upper case.
fn write_upper(letters: &[u8], name: &mut String) -> Result<(), Memory>
    requires { IsTrue (list_all is_ascii letters.now) }
    ensures { OnOk result (string_bytes name.new ≡ Meanings.upper letters.now) }
{
    name.clear();
    // Letters in ASCII are UTF-8.
    name.push_str(unsafe { str::from_utf8_unchecked(letters) })?;
    name.make_ascii_uppercase();
    Ok(())
}

/// The symbol that these letters of a token name, in upper case. What the text had is lost: it only spares a new one for each token.
fn spelled(
    name: &mut String,
    letters: &[u8],
    place: Place,
    symbols: &mut Symbols,
) -> Result<SymbolId, Rejection>
    requires { IsTrue (list_all is_ascii letters.now) }
    ensures interned { IfOk result (IsInterned symbols.old symbols.new (Meanings.upper letters.now)) }
    ensures refused { IfErr result (IsNotInterned TooManySymbols place symbols.old symbols.new (Meanings.upper letters.now)) }
{
    write_upper(letters, name)?;
    symbol(symbols, name.as_str(), place)
}

/// The leaf that a token is.
fn token_leaf(
    name: &mut String,
    letters: &[u8],
    place: Place,
    symbols: &mut Symbols,
) -> Result<Leaf, Rejection>
    ensures leaf { IfOk result (IsLeaf letters.now symbols.old symbols.new) }
    ensures refused { IfErr result (IsNoLeaf letters.now place symbols.old symbols.new) }
{
    match meaning_of(letters) {
        Meaning::Integer(number) => Ok(Leaf::Int(number)),
        Meaning::Time(micros) => Ok(Leaf::Time(Micros(micros))),
        Meaning::Symbol(start) => {
            let letters = letters_from(letters, start);
            let id = spelled(name, letters, place, symbols)?;
            Ok(Leaf::Symbol(id))
        }
        Meaning::Keyword => {
            let id = spelled(name, letters, place, symbols)?;
            Ok(Leaf::Symbol(id))
        }
        Meaning::TooLarge => Err(Rejection::at(Refusal::NumberTooLarge, place)),
        Meaning::Bad => Err(Rejection::at(Refusal::BadToken, place)),
    }
}

/// So many letters from a place on, or fewer where the text ends before.
fn letters_at(text: &[u8], at: usize, count: usize) -> &[u8]
    ensures { result.now ≡ take count (drop at text.now) }
{
    let rest = letters_from(text, at);
    &rest[..count.min(rest.len())]
}

/// What has been gathered of a text: what is open, and the marks of its parts.
#[derive(Drop)]
struct Gatherer {
    opens: Opens,
    marks: Vec<Mark>,
    /// A text in which names are put in upper case. What it has does not matter.
    name: String,
}

impl Gatherer {
    /// Nothing is gathered. It takes no memory.
    fn new(alloc: Global) -> Self
        ensures opens { result.opens ≡ [] }
        ensures marks { result.marks.items ≡ [] }
    {
        Gatherer {
            opens: Opens::new(alloc),
            marks: Vec::new(alloc),
            name: String::new(alloc),
        }
    }

    /// Puts a mark after the others.
    fn put(&mut self, kind: MarkKind, place: Place) -> Result<(), Memory>
        ensures marks { OnOk result (self.new.marks.items ≡ self.old.marks.items ++ (record { kind = kind; place = place }) ∷ []) }
        ensures opens { self.new.opens ≡ self.old.opens }
    {
        self.marks.push(Mark { kind, place })?;
        Ok(())
    }

    /// Takes the parenthesis that opens a list.
    fn take_open(&mut self, place: Place) -> Result<(), Rejection>
        ensures took { (t : Tables) → IfOk result (λ _. TookPart (OpensPart place) self.old.opens self.new.opens t t self.old.marks.items self.new.marks.items) }
        ensures refused { (t : Tables) → IfErr result (RefusedPart (OpensPart place) self.old.opens t t) }
    {
        if self.opens.is_full() {
            return Err(Rejection::at(Refusal::TooDeep, place));
        }
        self.opens.push(Opening::List(place))?;
        self.put(MarkKind::Open, place)?;
        Ok(())
    }

    /// Takes the parenthesis that closes a list.
    fn take_close(&mut self, place: Place) -> Result<(), Rejection>
        ensures took { (t : Tables) → IfOk result (λ _. TookPart (Closes place) self.old.opens self.new.opens t t self.old.marks.items self.new.marks.items) }
        ensures refused { (t : Tables) → IfErr result (RefusedPart (Closes place) self.old.opens t t) }
    {
        if !self.opens.close() {
            return Err(Rejection::at(Refusal::UnmatchedClose, place));
        }
        self.opens.settle();
        self.put(MarkKind::Close, place)?;
        Ok(())
    }

    /// Takes a quote.
    fn take_quote(
        &mut self,
        function: bool,
        place: Place,
        symbols: &mut Symbols,
    ) -> Result<(), Rejection>
        ensures took { (literals : List (List ℕ)) → IfOk result (λ _. TookPart (Quotes function place) self.old.opens self.new.opens (tables_of symbols.old literals) (tables_of symbols.new literals) self.old.marks.items self.new.marks.items) }
        ensures refused { (literals : List (List ℕ)) → IfErr result (RefusedPart (Quotes function place) self.old.opens (tables_of symbols.old literals) (tables_of symbols.new literals)) }
    {
        if self.opens.is_full() {
            return Err(Rejection::at(Refusal::TooDeep, place));
        }
        let name = if function { "FUNCTION" } else { "QUOTE" };
        let id = symbol(symbols, name, place)?;
        self.opens.push(Opening::Quote(place))?;
        self.put(MarkKind::Quote(id), place)?;
        Ok(())
    }

    /// Takes a string literal with these characters.
    fn take_literal(
        &mut self,
        characters: &str,
        place: Place,
        texts: &mut Texts,
    ) -> Result<(), Rejection>
        ensures took { (symbols : List (List ℕ)) → IfOk result (λ _. TookPart (Literal place characters.now) self.old.opens self.new.opens (tables_of symbols texts.old) (tables_of symbols texts.new) self.old.marks.items self.new.marks.items) }
        ensures refused { (symbols : List (List ℕ)) → IfErr result (RefusedPart (Literal place characters.now) self.old.opens (tables_of symbols texts.old) (tables_of symbols texts.new)) }
    {
        let id = text(texts, characters, place)?;
        self.opens.settle();
        self.put(MarkKind::ALeaf(Leaf::Text(id)), place)?;
        Ok(())
    }

    /// Takes a token with these letters.
    fn take_token(
        &mut self,
        letters: &[u8],
        place: Place,
        symbols: &mut Symbols,
    ) -> Result<(), Rejection>
        ensures took { (literals : List (List ℕ)) → IfOk result (λ _. TookPart (Token' place letters.now) self.old.opens self.new.opens (tables_of symbols.old literals) (tables_of symbols.new literals) self.old.marks.items self.new.marks.items) }
        ensures refused { (literals : List (List ℕ)) → IfErr result (RefusedPart (Token' place letters.now) self.old.opens (tables_of symbols.old literals) (tables_of symbols.new literals)) }
    {
        let leaf = token_leaf(&mut self.name, letters, place, symbols)?;
        self.opens.settle();
        self.put(MarkKind::ALeaf(leaf), place)?;
        Ok(())
    }

    /// Takes the part of this kind that begins at a place of a text.
    fn take(
        &mut self,
        text: &[u8],
        at: usize,
        kind: &PartKind,
        symbols: &mut Symbols,
        texts: &mut Texts,
    ) -> Result<(), Rejection>
        requires { at < 2 ^ 32 }
        ensures took { IfOk result (λ _. TookPart (part_of text.now at kind.now) self.old.opens self.new.opens (tables_of symbols.old texts.old) (tables_of symbols.new texts.new) self.old.marks.items self.new.marks.items) }
        ensures refused { IfErr result (RefusedPart (part_of text.now at kind.now) self.old.opens (tables_of symbols.old texts.old) (tables_of symbols.new texts.new)) }
    {
        let place = Place(at as u32);
        match kind {
            PartKind::Open => self.take_open(place),
            PartKind::Close => self.take_close(place),
            PartKind::Quote(function) => self.take_quote(*function, place, symbols),
            PartKind::Text(characters) => self.take_literal(characters, place, texts),
            PartKind::OpenText => Err(Rejection::at(Refusal::EndInside, place)),
            PartKind::Token(count) => {
                self.take_token(letters_at(text, at, *count), place, symbols)
            }
        }
    }

    /// The marks, at the end of a text, where nothing is open.
    fn finish(self) -> Result<Vec<Mark>, Rejection>
        ensures ends { (t : Tables) → OnOk result (at_end self.opens t ≡ faultless t) }
        ensures marks { IfOk result (λ marks. marks.items ≡ self.marks.items) }
        ensures refused { (t : Tables) → IfErr result (IsEndRefusal self.opens t) }
    {
        match self.opens.innermost() {
            Some(place) => Err(Rejection::at(Refusal::EndInside, place)),
            None => Ok(self.marks),
        }
    }
}

/// The marks of a text. Its symbols and literals go into the tables, in the order of reading.
pub fn gather(
    alloc: Global,
    text: &[u8],
    symbols: &mut Symbols,
    texts: &mut Texts,
) -> Result<Vec<Mark>, Rejection>
    requires whole { IsUtf8 text.now }
    requires short { length text.now < 2 ^ 32 }
    ensures gathered { OnOk result (gathered_of [] (tables_of symbols.old texts.old) (parts_of text.now) ≡ faultless (tables_of symbols.new texts.new)) }
    ensures marks { IfOk result (λ marks. marks.items ≡ map (mark_of (tables_of symbols.new texts.new)) (parts_of text.now)) }
    ensures refused { IfErr result (IsRefusalOf (parts_of text.now) (tables_of symbols.old texts.old) (tables_of symbols.new texts.new)) }
{
    let mut gatherer = Gatherer::new(alloc);
    let mut at = 0;
    while at < text.len() {
        match scan(alloc, text, at)? {
            Scanned::Blank(next) => at = next,
            Scanned::Found(kind, next) => {
                gatherer.take(text, at, &kind, symbols, texts)?;
                at = next;
            }
        }
    }
    gatherer.finish()
}
