ghost use Rattle.std.specs.Prelude.{◌≡◌};
ghost use Rattle.form_compiler.specs.inside.Marks.{HasNoClauses};

use lisp_base::id::Place;
use lisp_code::instr::Instr;
use std::marker::Model;

/// A line as the compiler writes it: an instruction of the form at a place, how many operands there are before it, and how many
/// values it holds.
#[derive(Clone, Copy)]
pub struct Mark {
    pub instr: Instr,
    pub place: Place,
    pub height: u32,
    pub held: u32,
}

/// A line without clauses. Contracts see the line.
#[derive(Clone, Copy)]
pub struct Light {
    mark: Mark,
}

impl Model for Light {
    ghost use Rattle.form_compiler.specs.declared.mark.Mark.{Mark};

    ghost Value = { Mark };

    ghost view = { λ l. l.mark };

    ghost use Rattle.form_compiler.specs.inside.Marks.{HasNoClauses};

    ghost invariant = { λ l. HasNoClauses l.mark.instr };

    ghost inverse = { λ m. record { mark = m } };
}

impl Light {
    /// This line.
    pub(crate) fn of(mark: Mark) -> Self
        requires { HasNoClauses mark.instr }
        ensures { result ≡ mark }
    {
        Light { mark }
    }

    /// The line.
    pub fn mark(self) -> Mark
        ensures is { result ≡ self }
        ensures light { HasNoClauses result.instr }
    {
        self.mark
    }
}
