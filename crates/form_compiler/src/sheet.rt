//! The lines of code that are written, one after the other.
ghost use Rattle.std.specs.Prelude.{◌≡◌, [], ◌∷◌, ◌++◌, map, drop, length, IfOk, OnOk};
ghost use Rattle.lisp_code.specs.CodeOf.{most_held};
ghost use Rattle.lisp_code.specs.Lines.{EntersHandler, Placed};
ghost use Rattle.lisp_code.specs.Parts.{line_of};
ghost use Rattle.form_compiler.specs.inside.Marks.{placed_of};
ghost use Rattle.form_compiler.specs.inside.Sheets;
ghost use Rattle.form_compiler.specs.inside.Sound.{RowsAreThere};

use crate::mark::{Light, Mark};
use lisp_base::id::{Place, SymbolId};
use lisp_base::memory::Memory;
use lisp_code::code::{CodeParts, FunctionCode};
use lisp_code::instr::{Clause, Instr};
use std::alloc::Global;
use std::marker::Model;

/// Lines that are written one after the other, and for each handler its clauses. Contracts see the lines.
#[derive(Drop)]
pub(crate) struct Sheet {
    marks: Vec<Mark>,
    rows: Vec<Vec<Clause>>,
}

impl Model for Sheet {
    ghost use Rattle.std.specs.Prelude.{List, length, map};
    ghost use Rattle.lisp_code.specs.Lines.{Placed};
    ghost use Rattle.lisp_code.specs.Parts.{rows_of};
    ghost use Rattle.form_compiler.specs.inside.Marks.{placed_of};
    ghost use Rattle.form_compiler.specs.inside.Sheets.{HaveRows};

    ghost Value = { List Placed };

    ghost view = { λ s. map (placed_of (rows_of s.rows.items)) s.marks.items };

    ghost invariant = { λ s. HaveRows (length s.rows.items) s.marks.items };
}

impl Sheet {
    /// No lines.
    pub(crate) fn new(alloc: Global) -> Self
        ensures { result ≡ [] }
    {
        Sheet {
            marks: Vec::new(alloc),
            rows: Vec::new(alloc),
        }
    }

    /// How many lines there are.
    pub(crate) fn len(&self) -> usize
        ensures { result ≡ length self.now }
    {
        self.marks.as_slice().len()
    }

    /// Writes a line at the end. It errs where memory runs out.
    #[tactic(auto, using(crate::proofs::Lined::light_written, crate::proofs::Lined::light_rows))]
    pub(crate) fn write(&mut self, light: Light) -> Result<(), Memory>
        ensures { OnOk result (self.new ≡ self.old ++ placed_of [] light ∷ []) }
    {
        self.marks.extend_from_slice(&[light.mark()])?;
        Ok(())
    }

    /// Writes a line at the end that opens a handler with these clauses. It errs where memory runs out.
    #[tactic(auto, using(crate::proofs::Lined::handler_rows, crate::proofs::Lined::more_rows))]
    pub(crate) fn open_handler(
        &mut self,
        clauses: Vec<Clause>,
        place: Place,
        height: u32,
        held: u32,
    ) -> Result<(), Memory>
        ensures { OnOk
            result
            (self.new
            ≡ self.old
            ++ record { line = EntersHandler clauses.items; place = place; height = height; held = held }
            ∷ []) }
    {
        let row = next_row(self.rows.as_slice())?;
        self.marks.reserve(1)?;
        self.rows.push(clauses)?;
        self.marks.push_reserved(Mark {
            instr: Instr::EnterHandler(row),
            place,
            height,
            held,
        });
        Ok(())
    }

    /// The most values that one of the lines from a position on holds: 0 where there is none.
    pub(crate) fn most_from(&self, at: usize) -> u32
        ensures { result ≡ most_held (drop at self.now) }
    {
        let marks = self.marks.as_slice();
        if at < marks.len() {
            most_marked(&marks[at..])
        } else {
            0
        }
    }

    /// The lines as parts of code with these functions and special variables. It errs where memory runs out.
    pub(crate) fn into_parts(
        self,
        functions: Vec<FunctionCode>,
        specials: Vec<SymbolId>,
        alloc: Global,
    ) -> Result<CodeParts, Memory>
        ensures lines { IfOk result (λ parts. map (line_of parts.handlers) parts.instrs ≡ map (λ (l : Placed). l.line) self) }
        ensures places { IfOk result (λ parts. parts.places ≡ map (λ (l : Placed). l.place) self) }
        ensures heights { IfOk result (λ parts. parts.heights ≡ map (λ (l : Placed). l.height) self) }
        ensures functions { IfOk result (λ parts. parts.functions ≡ functions.items) }
        ensures specials { IfOk result (λ parts. parts.specials ≡ specials.items) }
        ensures rows { IfOk result RowsAreThere }
    {
        let mut instrs = Vec::new(alloc);
        let mut places = Vec::new(alloc);
        let mut heights = Vec::new(alloc);
        for mark in self.marks.as_slice() {
            instrs.push(mark.instr)?;
            places.push(mark.place)?;
            heights.push(mark.height)?;
        }
        Ok(CodeParts {
            instrs,
            places,
            heights,
            functions,
            specials,
            handlers: self.rows,
        })
    }
}

/// The number of the row after these.
fn next_row(rows: &[Vec<Clause>]) -> Result<u32, Memory>
    ensures { IfOk result (λ n. n ≡ length rows.now) }
{
    u32::try_from(rows.len()).map_err(|_| Memory)
}

/// The most values that one of these lines holds.
fn most_marked(marks: &[Mark]) -> u32
    ensures { result ≡ Sheets.most_marked marks.now }
{
    let mut most = 0;
    for index in (0..marks.len()).rev() {
        most = marks[index].held.max(most);
    }
    most
}
