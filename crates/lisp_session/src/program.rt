ghost use Rattle.std.specs.Prelude.{◌≡◌, [], IfOk};
ghost use Rattle.std.specs.Result.{IfErr};
ghost use Rattle.symbol_table.specs.Names.{first_symbols};
ghost use Rattle.lisp_program.specs.Program.{program_of};
ghost use Rattle.lisp_reader.specs.Tables.{tables_of};
ghost use Rattle.plain_program.specs.Forms.{forms_of};
ghost use Rattle.lisp_session.specs.Programs.{Reads};
ghost use Rattle.lisp_session.specs.inside.Reading.{IsPlain, IsRefusal, IsUnbuilt, IsWhole, program_in};

use lisp_base::refusal::{Refusal, Rejection};
use lisp_forms::expander::expand;
use lisp_program::form::Program;
use lisp_reader::reader::read_program;
use plain_program::form::PlainNode;
use plain_program::plain::plain_nodes;
use std::alloc::Global;
use symbol_table::symbols::Symbols;
use symbol_table::texts::Texts;

/// A program that was read, with the forms of main that are run, and with its symbols and string literals.
#[derive(Drop)]
pub(crate) struct Reading {
    pub program: Program,
    pub forms: Vec<PlainNode>,
    pub symbols: Symbols,
    pub texts: Texts,
}

/// The whole program that these bytes stand for, whatever of it is run, with their names and string literals.
fn whole_program(
    alloc: Global,
    bytes: &[u8],
    symbols: &mut Symbols,
    texts: &mut Texts,
) -> Result<Program, Rejection>
    requires { (symbols.now ≡ first_symbols) × (texts.now ≡ []) }
    ensures read { IfOk result (λ program. IsWhole bytes.now (tables_of symbols.new texts.new) (program_of program)) }
    ensures refused { IfErr result (IsRefusal bytes.now) }
{
    let data = read_program(alloc, bytes, symbols, texts)?;
    let program = data.each(alloc)?;
    expand(alloc, program.as_slice(), symbols, texts)
}

/// The forms of main in the kinds that are run. It errs at the first form that is not run yet.
fn plain_main(alloc: Global, program: &Program) -> Result<Vec<PlainNode>, Rejection>
    ensures plain { IfOk result (λ forms. IsPlain (program_of program.now) (forms_of forms.items)) }
    ensures refused { IfErr result (IsUnbuilt (program_of program.now)) }
{
    match plain_nodes(alloc, program.main())? {
        Ok(forms) => Ok(forms),
        Err(place) => Err(Rejection::at(Refusal::NotBuilt, place)),
    }
}

/// The program that these bytes are, with the forms of main that are run, and with their names and string literals.
fn read_into(
    alloc: Global,
    bytes: &[u8],
    symbols: &mut Symbols,
    texts: &mut Texts,
) -> Result<(Program, Vec<PlainNode>), Rejection>
    requires { (symbols.now ≡ first_symbols) × (texts.now ≡ []) }
    ensures read { IfOk result (λ program. Reads bytes.now (tables_of symbols.new texts.new) (record { forms = forms_of program.1.items; specials = program.0.specials })) }
    ensures refused { IfErr result (IsRefusal bytes.now) }
{
    let program = whole_program(alloc, bytes, symbols, texts)?;
    let forms = plain_main(alloc, &program)?;
    Ok((program, forms))
}

/// Reads the program that these bytes are.
pub(crate) fn read(alloc: Global, bytes: &[u8]) -> Result<Reading, Rejection>
    ensures read { IfOk result (λ reading. Reads bytes.now (tables_of reading.symbols reading.texts) (program_in reading)) }
    ensures refused { IfErr result (IsRefusal bytes.now) }
{
    let mut symbols = Symbols::new(alloc)?;
    let mut texts = Texts::new(alloc)?;
    let (program, forms) = read_into(alloc, bytes, &mut symbols, &mut texts)?;
    Ok(Reading {
        program,
        forms,
        symbols,
        texts,
    })
}
