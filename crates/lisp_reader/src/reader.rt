ghost use Rattle.std.specs.Prelude.{◌≡◌, IfOk};
ghost use Rattle.std.specs.Result.{IfErr};
ghost use Rattle.lisp_data.specs.Data.{each};
ghost use Rattle.lisp_reader.specs.Reading.{IsRefusal, NeverBoth, OneReading, OneRefusal, ReadOrRefused, Reads};
ghost use Rattle.lisp_reader.specs.Tables.{tables_of};
ghost use Rattle.lisp_reader.specs.Tokens.{RunsAreTokens, TokensAreRuns};

use crate::build::nodes_of;
use crate::gather::gather;
use lisp_base::id::Place;
use lisp_base::refusal::{Refusal, Rejection};
use lisp_data::split::AllData;
use std::alloc::Global;
use symbol_table::symbols::Symbols;
use symbol_table::texts::Texts;

/// A program has so many bytes at most.
const LONGEST: usize = 1_048_576;

/// Reads the text of a program: the data at its top level, in order. Its names and string literals go into the tables, each new one
/// with the next number, in the order of their first use. It errs where the text is not that of a program, and where memory
/// runs out. The tables then keep what came into them.
pub fn read_program(
    alloc: Global,
    text: &[u8],
    symbols: &mut Symbols,
    texts: &mut Texts,
) -> Result<AllData, Rejection>
    ensures read { IfOk result (λ read. Reads text.now (tables_of symbols.old texts.old) (tables_of symbols.new texts.new) (each read)) }
    ensures refused { IfErr result (IsRefusal text.now (tables_of symbols.old texts.old) (tables_of symbols.new texts.new)) }
{
    if text.len() > LONGEST {
        return Err(Rejection::at(Refusal::TooLong, Place(LONGEST as u32)));
    }
    if let Err(error) = str::from_utf8(text) {
        return Err(Rejection::at(Refusal::NotUtf8, Place(error.valid_up_to() as u32)));
    }
    let marks = gather(alloc, text, symbols, texts)?;
    let nodes = nodes_of(alloc, marks.as_slice())?;
    Ok(AllData::of(nodes))
}

/// A text has at most one reading. There is nothing to run: the clause is the law, as it is in the five functions below.
pub fn one_reading()
    ensures { OneReading }
{}

/// Each text is read or refused.
pub fn read_or_refused()
    ensures { ReadOrRefused }
{}

/// A text that is read is not refused.
pub fn never_both()
    ensures { NeverBoth }
{}

/// A text is refused for one reason at one place.
pub fn one_refusal()
    ensures { OneRefusal }
{}

/// Each token of a text is a longest run of bytes that may belong to a token.
pub fn tokens_are_runs()
    ensures { TokensAreRuns }
{}

/// In a text without comments and string literals each longest run of such bytes is a token, or it is the `#` of a `#'`.
pub fn runs_are_tokens()
    ensures { RunsAreTokens }
{}
