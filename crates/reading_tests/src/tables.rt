//! What texts read as over tables of names and string literals, as text, for the tests of the reader.
use crate::form_text::{expansion, verdict};
use lisp_base::id::{Micros, Place, StringId, SymbolId};
use lisp_base::memory::Memory;
use lisp_base::refusal::{Refusal, Rejection};
use lisp_data::datum::{Datum, DatumKind, DatumNode};
use lisp_data::split::AllData;
use lisp_reader::reader::read_program;
use std::alloc::{AllocError, Global};
use std::test::Fail;
use symbol_table::NAMES;
use symbol_table::symbols::Symbols;
use symbol_table::texts::Texts;

/// The names and the string literals of what has been read.
#[derive(Drop)]
pub struct Tables {
    pub symbols: Symbols,
    pub texts: Texts,
}

/// What is compared of a text that is read. Of a text that is refused it is the name and the place of its refusal.
#[derive(Clone, Copy)]
pub enum Told {
    /// The data, as `Tables::printed` gives them.
    Data,
    /// How many nodes there are.
    Count,
    /// How many nodes there are, and after that the names and the literals that the tables then hold.
    Kept,
    /// Each node with the numbers in it and its place, and after them the names and the literals.
    Kinds,
    /// The forms that the data expand to, each with its place.
    Places,
    /// The forms that the data expand to, without places.
    Forms,
    /// Whether the data are a program.
    Verdict,
}

impl Tables {
    /// The first five symbols alone.
    pub fn new(alloc: Global) -> Result<Self, Memory> {
        let symbols = Symbols::new(alloc)?;
        let texts = Texts::new(alloc)?;
        Ok(Tables { symbols, texts })
    }

    /// The data of a text, or what is refused of it, and where.
    pub fn read(
        &mut self,
        alloc: Global,
        text: &[u8],
    ) -> Result<Result<AllData, (Refusal, u32)>, Fail> {
        match read_program(alloc, text, &mut self.symbols, &mut self.texts) {
            Ok(data) => Ok(Ok(data)),
            Err(
                Rejection::Refused {
                    refusal,
                    place: Place(place),
                },
            ) => Ok(Err((refusal, place))),
            Err(error) => Err(error.into()),
        }
    }

    /// What a text reads as.
    pub fn outcome(&mut self, alloc: Global, text: &[u8], told: Told) -> Result<String, Fail> {
        let outcome = self.read(alloc, text)?;
        let mut printed = match &outcome {
            Ok(data) => self.told(alloc, data.each(alloc)?.as_slice(), told)?,
            Err((refusal, place)) => {
                let name = refusal.name();
                format!(in alloc; "refusal {name} at {place}")?
            }
        };
        match told {
            Told::Data | Told::Count | Told::Places | Told::Forms | Told::Verdict => {}
            Told::Kept | Told::Kinds => {
                printed.push_str(self.names(alloc)?.as_str())?;
                printed.push_str(self.literals(alloc)?.as_str())?;
            }
        }
        Ok(printed)
    }

    /// What is compared of data, without the names and the literals.
    fn told(&self, alloc: Global, data: &[Datum], told: Told) -> Result<String, Fail> {
        match told {
            Told::Data => Ok(self.printed(alloc, data)?),
            Told::Count | Told::Kept => Ok(count(alloc, data)?),
            Told::Kinds => Ok(kinds(alloc, data)?),
            Told::Places => expansion(alloc, data, self, true),
            Told::Forms => expansion(alloc, data, self, false),
            Told::Verdict => verdict(alloc, data, self),
        }
    }

    /// The names after the first five, in the order of their numbers, each with a blank before it.
    fn names(&self, alloc: Global) -> Result<String, AllocError> {
        let mut names = String::new(alloc);
        for number in 5..NAMES {
            let Some(name) = self.symbols.name(SymbolId(number)) else {
                break;
            };
            write!(names, " {name}")?;
        }
        Ok(names)
    }

    /// The string literals, in the order of their numbers, each with a blank before it.
    fn literals(&self, alloc: Global) -> Result<String, AllocError> {
        let mut literals = String::new(alloc);
        for number in 0..NAMES {
            let Some(text) = self.texts.text(StringId(number)) else {
                break;
            };
            write!(literals, " \"{text}\"")?;
        }
        Ok(literals)
    }

    /// Adds what a node says to a text. A list stays open.
    fn print_node(&self, printed: &mut String, node: &DatumNode) -> Result<(), AllocError> {
        match node.kind {
            DatumKind::List { .. } => printed.push('('),
            DatumKind::Int(number) => write!(printed, "{number}"),
            DatumKind::Time(Micros(micros)) => write!(printed, "{micros}u"),
            DatumKind::Symbol(id) => {
                printed.push_str(self.symbols.name(id).unwrap_or("no name"))
            }
            DatumKind::Text(id) => {
                let text = self.texts.text(id).unwrap_or("no text");
                write!(printed, "\"{text}\"")
            }
        }
    }

    /// Adds a datum to a text: each node with its place, and a list closed after its last item.
    fn print_datum(
        &self,
        printed: &mut String,
        nodes: &[DatumNode],
        open: &mut Vec<u32>,
    ) -> Result<(), AllocError> {
        for node in nodes {
            if !printed.is_empty() {
                printed.push(' ')?;
            }
            self.print_node(printed, node)?;
            let place = node.place.0;
            write!(printed, "@{place}")?;
            for _ in 0..lists_ended(open, node)? {
                printed.push(')')?;
            }
        }
        Ok(())
    }

    /// Data as text: each node with its place, `'a` as `(@0 QUOTE@0 A@1)`.
    fn printed(&self, alloc: Global, data: &[Datum]) -> Result<String, AllocError> {
        let mut printed = String::new(alloc);
        let mut open = Vec::new(alloc);
        for datum in data {
            open.clear();
            self.print_datum(&mut printed, datum.nodes(), &mut open)?;
        }
        Ok(printed)
    }
}

/// How many lists a node ends. Of each list that is open it is kept how many items are still to come.
fn lists_ended(open: &mut Vec<u32>, node: &DatumNode) -> Result<usize, AllocError> {
    if let Some(count) = open.last_mut() {
        *count = u32::saturating_sub(*count, 1);
    }
    if let DatumKind::List { items, .. } = node.kind {
        open.push(items)?;
    }
    let ended = open.iter().rev().take_while(|count| **count == 0).count();
    open.truncate(open.len().saturating_sub(ended));
    Ok(ended)
}

/// How many nodes data have.
fn count(alloc: Global, data: &[Datum]) -> Result<String, AllocError> {
    let mut count: usize = 0;
    for datum in data {
        count = count.saturating_add(datum.nodes().len());
    }
    format!(in alloc; "{count}")
}

/// The nodes of data with their numbers, `'a` as `List { items: 2, nodes: 2 }@0 Symbol(SymbolId(5))@0 Symbol(SymbolId(6))@1`.
fn kinds(alloc: Global, data: &[Datum]) -> Result<String, AllocError> {
    let mut printed = String::new(alloc);
    for datum in data {
        for DatumNode { place, kind } in datum.nodes() {
            if !printed.is_empty() {
                printed.push(' ')?;
            }
            write!(printed, "{kind:?}@{}", place.0)?;
        }
    }
    Ok(printed)
}
