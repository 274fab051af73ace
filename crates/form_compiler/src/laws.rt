//! Laws of the points of well-made forms. There is nothing to run: the clauses are the laws.
ghost use Rattle.std.specs.Prelude.{◌≤◌};
ghost use Rattle.lisp_program.specs.Forms.{Forms};
ghost use Rattle.lisp_program.specs.Program.{Program};
ghost use Rattle.lisp_program.specs.WellMade.{AreMade, IsWellMade, Seat};
ghost use Rattle.form_compiler.specs.inside.Fits.{AreFit};
ghost use Rattle.form_compiler.specs.inside.Gives.{AreGiving};
ghost use Rattle.form_compiler.specs.inside.Reaches.{AllReach};
ghost use Rattle.form_compiler.specs.inside.Sound.{RowsAreThere};
ghost use Rattle.lisp_code.specs.CodeOf.{IsCodeOf, most_held, program_lines};
ghost use Rattle.lisp_code.specs.Parts.{Parts};
ghost use Rattle.lisp_code.specs.Validity.{IsValid, most_operands};

/// Each well-made form gives one value, or what is wanted of it where it stands.
pub fn made_forms_give()
    ensures { (program : Program) (seat : Seat) (forms : Forms) → AreMade program seat forms → AreGiving seat forms }
{}

/// Each well-made form holds, at one of its lines, at least all that is held when it begins.
pub fn made_forms_reach()
    ensures { (program : Program) (seat : Seat) (forms : Forms) → AreMade program seat forms → AllReach forms }
{}

/// The points of each well-made form find their operands, and give what is wanted of them.
pub fn made_forms_fit()
    ensures { (program : Program) (seat : Seat) (forms : Forms) → AreMade program seat forms → AreFit program.specials forms }
{}

/// The code of a well-made program is valid where no line holds too much, and where the rows of clauses are there that it names.
pub fn code_is_valid()
    ensures { (program : Program) (parts : Parts) → IsCodeOf program parts → IsWellMade program → RowsAreThere parts
        → most_held (program_lines program) ≤ most_operands → IsValid parts }
{}
