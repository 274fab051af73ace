//! What programs are compiled to, as text.
use form_compiler::compile::{code_of, compile};
use lisp_base::refusal::Rejection;
use lisp_code::code::{Code, FunctionCode};
use lisp_code::instr::Clause;
use lisp_forms::expander::expand;
use lisp_reader::reader::read_program;
use std::alloc::{AllocError, Global};
use std::test::Fail;
use symbol_table::symbols::Symbols;
use symbol_table::texts::Texts;

/// What is compared of a program. Of one that is refused it is the name and the place of its refusal.
#[derive(Clone, Copy)]
pub enum Told {
    /// How many instructions it has where it is compiled.
    Compiled,
    /// How many it has where forms that are not run yet are compiled too.
    Laid,
    /// How large its functions are then.
    Functions,
    /// All of its code then.
    All,
}

/// What a text is compiled to.
pub fn outcome(alloc: Global, text: &[u8], told: Told) -> Result<String, Fail> {
    let mut symbols = Symbols::new(alloc)?;
    let mut texts = Texts::new(alloc)?;
    let data = read_program(alloc, text, &mut symbols, &mut texts)?;
    let program = expand(alloc, data.each(alloc)?.as_slice(), &symbols, &texts)?;
    let code = match told {
        Told::Compiled => compile(alloc, &program),
        Told::Laid | Told::Functions | Told::All => code_of(alloc, &program),
    };
    match &code {
        Ok(code) => printed(alloc, code, told),
        Err(rejection) => refused(alloc, rejection),
    }
}

/// The name and place of a refusal.
fn refused(alloc: Global, rejection: &Rejection) -> Result<String, Fail> {
    match rejection {
        Rejection::Refused { refusal, place } => {
            let name = refusal.name();
            let at = place.0;
            Ok(format!(in alloc; "{name} at {at}")?)
        }
        Rejection::Memory => Err("memory ran out".into()),
    }
}

/// What is compared of code.
fn printed(alloc: Global, code: &Code, told: Told) -> Result<String, Fail> {
    let mut printed = String::new(alloc);
    match told {
        Told::Compiled | Told::Laid => {
            let count = code.instrs().len();
            write!(printed, "{count}")?;
        }
        Told::Functions => push_sizes(&mut printed, code)?,
        Told::All => push_code(&mut printed, code)?,
    }
    Ok(printed)
}

/// Adds three numbers of each function to a text: where it begins, how many parameters it has, and how many values a call of it holds.
fn push_sizes(printed: &mut String, code: &Code) -> Result<(), AllocError> {
    for function in code.functions() {
        if !printed.is_empty() {
            printed.push_str(", ")?;
        }
        let FunctionCode {
            entry,
            params,
            height,
            ..
        } = function;
        write!(printed, "{entry} {params} {height}")?;
    }
    Ok(())
}

/// Adds the parts of code to a text, each instruction, row of clauses, function and special variable on a line of its own.
fn push_code(printed: &mut String, code: &Code) -> Result<(), AllocError> {
    push_instrs(printed, code)?;
    for row in code.handlers() {
        push_row(printed, row.as_slice())?;
    }
    push_functions(printed, code)
}

/// Adds each instruction to a text, after its position, its place, and how many operands there are before it.
fn push_instrs(printed: &mut String, code: &Code) -> Result<(), AllocError> {
    let mut places = code.places().iter();
    let mut heights = code.heights().iter();
    for (at, instr) in code.instrs().iter().enumerate() {
        if let (Some(place), Some(height)) = (places.next(), heights.next()) {
            let offset = place.0;
            write!(printed, "{at} {offset} {height} ")?;
        }
        writeln!(printed, "{instr:?}")?;
    }
    Ok(())
}

/// Adds the clauses of a row to a text.
fn push_row(printed: &mut String, row: &[Clause]) -> Result<(), AllocError> {
    printed.push_str("clauses")?;
    for clause in row {
        let Clause {
            class,
            is_given,
            start,
        } = clause;
        write!(printed, " {class:?} {is_given} {start}")?;
    }
    printed.push('\n')
}

/// Adds each function to a text, with its name, its place, and the numbers of `push_sizes`. The special variables come after them.
fn push_functions(printed: &mut String, code: &Code) -> Result<(), AllocError> {
    for function in code.functions() {
        let FunctionCode {
            name,
            place,
            entry,
            params,
            height,
        } = function;
        let at = place.0;
        writeln!(printed, "{name:?} {at} {entry} {params} {height}")?;
    }
    for special in code.specials() {
        writeln!(printed, "{special:?}")?;
    }
    Ok(())
}
