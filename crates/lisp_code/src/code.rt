ghost use Rattle.std.specs.Prelude.{◌≡◌, ◌↔◌, ◌<◌, IsSome, IfSome, get_or, length};
ghost use Rattle.lisp_code.specs.Parts.{row_of, rows_of};
ghost use Rattle.lisp_code.specs.Validity.{IsFine, IsNoJump, IsValid};
ghost use Rattle.lisp_code.specs.Resting.{resting_of};
ghost use Rattle.lisp_code.specs.declared.instr.Instr.TheVariants.{Leave};

use crate::instr::{Clause, Instr};
use crate::valid::{is_valid, row_at};
pub use lisp_base::id::{FunctionName, Place, SymbolId};
use std::marker::Model;

/// A function in code: its name, the place of its form, its first position, how many parameters it has, and how many values one of
/// its calls holds at once at most.
#[derive(Clone, Copy, Debug, PartialEq, Eq)]
pub struct FunctionCode {
    pub name: FunctionName,
    pub place: Place,
    pub entry: u32,
    pub params: u32,
    pub height: u32,
}

/// The parts of code: its instructions, the place of each, how many operands there are before each, its functions, its special
/// variables in order of definition, and for each `handler-case` its clauses.
#[derive(Debug, Drop)]
pub struct CodeParts {
    pub instrs: Vec<Instr>,
    pub places: Vec<Place>,
    pub heights: Vec<u32>,
    pub functions: Vec<FunctionCode>,
    pub specials: Vec<SymbolId>,
    pub handlers: Vec<Vec<Clause>>,
}

impl Model for CodeParts {
    ghost use Rattle.lisp_code.specs.Parts.{Parts, rows_of};

    ghost Value = { Parts };

    ghost view = { λ c. record { instrs = c.instrs.items; places = c.places.items; heights = c.heights.items; functions = c.functions.items; specials = c.specials.items; handlers = rows_of c.handlers.items } };
}

/// Code that is valid: each of its instructions finds its operands, and goes on inside the code with as many as are expected there.
#[derive(Debug, Drop)]
pub struct Code {
    parts: CodeParts,
}

impl Model for Code {
    ghost use Rattle.lisp_code.specs.Parts.{Parts};
    ghost use Rattle.lisp_code.specs.Validity.{IsValid};

    ghost Value = { Parts };

    ghost view = { λ c. c.parts };

    ghost invariant = { λ c. IsValid c.parts };
}

impl Code {
    /// The code with these parts: `None` exactly where they are not those of valid code. It takes no memory.
    pub fn new(parts: CodeParts) -> Option<Self>
        ensures given { IsSome result ↔ IsValid parts }
        ensures same { IfSome result (λ c. c ≡ parts) }
    {
        if is_valid(&parts) {
            Some(Code { parts })
        } else {
            None
        }
    }

    /// Its instructions. It is valid.
    pub fn instrs(&self) -> &[Instr]
        ensures value { result.now ≡ self.now.instrs }
        ensures valid { IsValid self.now }
    {
        self.parts.instrs.as_slice()
    }

    /// The place of each instruction.
    pub fn places(&self) -> &[Place]
        ensures { result.now ≡ self.now.places }
    {
        self.parts.places.as_slice()
    }

    /// How many operands there are before each instruction.
    pub fn heights(&self) -> &[u32]
        ensures { result.now ≡ self.now.heights }
    {
        self.parts.heights.as_slice()
    }

    /// Its functions.
    pub fn functions(&self) -> &[FunctionCode]
        ensures { result.now ≡ self.now.functions }
    {
        self.parts.functions.as_slice()
    }

    /// Its special variables, in order of definition.
    pub fn specials(&self) -> &[SymbolId]
        ensures { result.now ≡ self.now.specials }
    {
        self.parts.specials.as_slice()
    }

    /// The clauses of each `handler-case`.
    pub fn handlers(&self) -> &[Vec<Clause>]
        ensures { rows_of result.now ≡ self.now.handlers }
    {
        self.parts.handlers.as_slice()
    }

    /// The clauses of the `handler-case` with this number, none where there is no such one.
    pub fn clauses(&self, row: u32) -> &[Clause]
        ensures { result.now ≡ row_of self.now.handlers row }
    {
        row_at(&self.parts.handlers, row)
    }

    /// The instruction at a position, which is as it should be.
    pub fn instr(&self, at: u32) -> Instr
        requires { at < length self.now.instrs }
        ensures value { result ≡ get_or self.now.instrs at Leave }
        ensures fine { IsFine self.now at (get_or self.now.heights at 0) result }
    {
        self.instrs()[at as usize]
    }

    /// Where one comes to rest from a position: jumps are followed to an instruction that is no jump.
    pub fn resting(&self, at: u32) -> u32
        requires { at < length self.now.instrs }
        ensures inside { result < length self.now.instrs }
        ensures no_jump { IsNoJump (get_or self.now.instrs result Leave) }
        ensures rests { result ≡ resting_of self.now.instrs at }
    {
        let mut here = at;
        while let Instr::Jump(to) = self.instr(here) {
            if to <= here {
                return to;
            }
            here = to;
        }
        here
    }
}
