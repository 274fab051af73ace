//! Programs compiled whole.
ghost use Rattle.std.specs.Prelude.{◌≡◌, ◌≤◌, ◌<◌, ◌+◌, ◌∷◌, ◌++◌, [], List, None, drop, length, IfOk, IfErr, OnOk};
ghost use Rattle.lisp_base.specs.declared.refusal.Refusal.TheVariants.{HeightTooLarge};
ghost use Rattle.lisp_program.specs.Forms.{forms_of};
ghost use Rattle.lisp_program.specs.Program.{function_of, program_of};
ghost use Rattle.lisp_program.specs.WellMade.{IsWellMade};
ghost use Rattle.lisp_code.specs.CodeOf.{IsCodeOf, Stretch, aborting, main_lines, most_held, names_of, program_lines, stretch_lines, stretch_of, stretches_of};
ghost use Rattle.lisp_code.specs.Lines.{size};
ghost use Rattle.form_compiler.specs.Refusals.{IsRefusalOf, at as refused, compile_refusal, most_values, size_refusal};
ghost use Rattle.form_compiler.specs.inside.Programs.{Added, AreLayable, BodiesAreLayable, Laying, functions_refusal, height_refusal};
ghost use Rattle.form_compiler.specs.inside.Steps.{most_lines};

use crate::hold::Hold;
use crate::lengths::program_lines as lines_of_program;
use crate::light::{act_light, ask_light, plain_light};
use crate::names::Names;
use crate::sheet::Sheet;
use crate::step::lay_out;
use crate::unbuilt::unbuilt;
use form_points::act::{Act, Question};
use lisp_base::id::{FunctionName, Place, SymbolId};
use lisp_base::memory::Memory;
pub use lisp_base::refusal::{Refusal, Rejection};
pub use lisp_code::code::Code;
use lisp_code::code::FunctionCode;
use lisp_code::instr::Instr;
use lisp_program::form::FunctionForm;
pub use lisp_program::form::Program;
use std::alloc::Global;

/// No code has more instructions.
const MOST_INSTRUCTIONS: u32 = 65_536;

/// No call holds more values at once.
const MOST_VALUES: u32 = 128;

/// Lays out main.
fn lay_main(
    alloc: Global,
    names: &Names,
    program: &Program,
    sheet: &mut Sheet,
) -> Result<(), Memory>
    requires made { AreLayable (forms_of program.now.main) }
    requires few { length (program_lines (program_of program.now)) ≤ most_lines }
    requires empty { sheet.now ≡ [] }
    ensures { OnOk result (sheet.new ≡ main_lines names.now (program_of program.now) []) }
{
    let begun = Hold::begun(0);
    let end = ask_light(Question::EndThread, Place(0), begun.one_more()?)?;
    lay_out(alloc, names, program.main(), Place(0), begun, end, sheet)?;
    Ok(())
}

/// Lays out a function.
fn lay_function(
    alloc: Global,
    names: &Names,
    function: &FunctionForm,
    sheet: &mut Sheet,
) -> Result<(), Memory>
    requires made { AreLayable (forms_of function.now.body) }
    requires room { length sheet.now + size (stretch_of (function_of function.now)).points < most_lines }
    ensures { OnOk result (sheet.new ≡ sheet.old ++ stretch_lines names.now (length sheet.old) (stretch_of (function_of function.now)) []) }
{
    let place = function.place();
    let begun = Hold::begun(function.params());
    let end = plain_light(Instr::Leave, place, begun.one_more()?, begun)?;
    lay_out(alloc, names, function.body(), place, begun, end, sheet)?;
    Ok(())
}

/// Lays out the function of `terminate-thread`.
fn lay_aborting(names: &Names, sheet: &mut Sheet) -> Result<(), Memory>
    ensures { OnOk result (sheet.new ≡ sheet.old ++ stretch_lines names.now (length sheet.old) aborting []) }
{
    let begun = Hold::begun(0);
    sheet.write(act_light(names, Act::AbortThread, Place(0), begun)?)?;
    sheet.write(plain_light(Instr::Leave, Place(0), begun.one_more()?, begun)?)?;
    Ok(())
}

/// How many values a call of what is at a place holds at once, where its lines are those from a position on. It errs where they are
/// too many.
fn height_from(sheet: &Sheet, at: usize, place: Place) -> Result<u32, Rejection>
    ensures is { IfOk result (λ height. height ≡ most_held (drop at sheet.now)) }
    ensures few { IfOk result (λ height. height ≤ most_values) }
    ensures refused { IfErr result (λ e. e ≡ refused HeightTooLarge place) }
    ensures high { IfErr result (λ e. most_values < most_held (drop at sheet.now)) }
{
    let height = sheet.most_from(at);
    if height > MOST_VALUES {
        return Err(Rejection::Refused {
            refusal: Refusal::HeightTooLarge,
            place,
        });
    }
    Ok(height)
}

/// Lays out a function, and says what it is in code.
fn add_function(
    alloc: Global,
    names: &Names,
    function: &FunctionForm,
    sheet: &mut Sheet,
) -> Result<FunctionCode, Rejection>
    requires made { AreLayable (forms_of function.now.body) }
    requires room { length sheet.now + size (stretch_of (function_of function.now)).points < most_lines }
    ensures added { IfOk result (Added names.now (stretch_of (function_of function.now)) sheet.old sheet.new) }
    ensures refused { (left : List Stretch) → IfErr result (IsRefusalOf (functions_refusal names.now (stretch_of (function_of function.now) ∷ left))) }
{
    let entry = sheet.len();
    lay_function(alloc, names, function, sheet)?;
    let height = height_from(sheet, entry, function.place())?;
    Ok(FunctionCode {
        name: function.name(),
        place: function.place(),
        entry: entry as u32,
        params: function.params(),
        height,
    })
}

/// Lays out the function of `terminate-thread`, and says what it is in code.
fn add_aborting(names: &Names, sheet: &mut Sheet) -> Result<FunctionCode, Rejection>
    requires room { length sheet.now < most_lines }
    ensures added { IfOk result (Added names.now aborting sheet.old sheet.new) }
    ensures refused { IfErr result (IsRefusalOf (functions_refusal names.now (aborting ∷ []))) }
{
    let entry = sheet.len();
    lay_aborting(names, sheet)?;
    let height = height_from(sheet, entry, Place(0))?;
    Ok(FunctionCode {
        name: FunctionName::AbortThread,
        place: Place(0),
        entry: entry as u32,
        params: 0,
        height,
    })
}

/// Lays out the functions of a program after main, and says what they are in code.
fn add_functions(
    alloc: Global,
    names: &Names,
    program: &Program,
    sheet: &mut Sheet,
) -> Result<Vec<FunctionCode>, Rejection>
    requires made { BodiesAreLayable program.now.functions }
    requires few { length (program_lines (program_of program.now)) ≤ most_lines }
    requires named { names.now ≡ names_of (stretches_of (program_of program.now)) }
    requires begun { Laying (program_of program.now) (stretches_of (program_of program.now)) sheet.now [] }
    ensures laid { IfOk result (λ functions. Laying (program_of program.now) [] sheet.new functions.items) }
    ensures refused { IfErr result (IsRefusalOf (functions_refusal names.now (stretches_of (program_of program.now)))) }
{
    let mut functions = Vec::new(alloc);
    for function in program.functions() {
        let code = add_function(alloc, names, function, sheet)?;
        add_code(code, &mut functions)?;
    }
    let code = add_aborting(names, sheet)?;
    add_code(code, &mut functions)?;
    Ok(functions)
}

/// Puts what a function is in code after others.
fn add_code(code: FunctionCode, functions: &mut Vec<FunctionCode>) -> Result<(), Memory>
    ensures { OnOk result (functions.new.items ≡ functions.old.items ++ code ∷ []) }
{
    functions.extend_from_slice(&[code])?;
    Ok(())
}

/// The special variables of a program.
fn specials(alloc: Global, program: &Program) -> Result<Vec<SymbolId>, Memory>
    ensures { IfOk result (λ specials. specials.items ≡ program.now.specials) }
{
    let mut specials = Vec::new(alloc);
    specials.extend_from_slice(program.specials())?;
    Ok(specials)
}

/// The code of a program that is not too long.
fn laid_code(alloc: Global, program: &Program) -> Result<Code, Rejection>
    requires made { IsWellMade (program_of program.now) }
    requires few { length (program_lines (program_of program.now)) ≤ most_lines }
    ensures code { IfOk result (IsCodeOf (program_of program.now)) }
    ensures accepted { IfOk result (λ code. height_refusal (program_of program.now) ≡ None) }
    ensures refused { IfErr result (IsRefusalOf (height_refusal (program_of program.now))) }
{
    let names = Names::of_program(alloc, program)?;
    let mut sheet = Sheet::new(alloc);
    lay_main(alloc, &names, program, &mut sheet)?;
    let _height = height_from(&sheet, 0, Place(0))?;
    let functions = add_functions(alloc, &names, program, &mut sheet)?;
    let parts = sheet.into_parts(functions, specials(alloc, program)?, alloc)?;
    Ok(Code::new(parts).unwrap())
}

/// The code of a program, of which some forms may not be run yet. It errs where memory runs out, where the code would have more than
/// 65,536 instructions (`CodeTooLong` at place 0), and else where main or a function would hold more than 128 values at once
/// (`HeightTooLarge` at place 0, or at that of the first such function).
pub fn code_of(alloc: Global, program: &Program) -> Result<Code, Rejection>
    requires { IsWellMade (program_of program.now) }
    ensures code { IfOk result (IsCodeOf (program_of program.now)) }
    ensures accepted { IfOk result (λ code. size_refusal (program_of program.now) ≡ None) }
    ensures refused { IfErr result (IsRefusalOf (size_refusal (program_of program.now))) }
{
    if lines_of_program(alloc, program)? > MOST_INSTRUCTIONS {
        return Err(Rejection::Refused {
            refusal: Refusal::CodeTooLong,
            place: Place(0),
        });
    }
    laid_code(alloc, program)
}

/// The code of a program. It errs where memory runs out, where a form is not run yet (`NotBuilt` at the least place of such a form), and
/// else as `code_of` does.
pub fn compile(alloc: Global, program: &Program) -> Result<Code, Rejection>
    requires { IsWellMade (program_of program.now) }
    ensures code { IfOk result (IsCodeOf (program_of program.now)) }
    ensures accepted { IfOk result (λ code. compile_refusal (program_of program.now) ≡ None) }
    ensures refused { IfErr result (IsRefusalOf (compile_refusal (program_of program.now))) }
{
    if let Some(place) = unbuilt(program) {
        return Err(Rejection::Refused {
            refusal: Refusal::NotBuilt,
            place,
        });
    }
    code_of(alloc, program)
}
