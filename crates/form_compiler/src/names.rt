//! Functions of a program by their names.
ghost use Rattle.std.specs.Prelude.{◌≡◌, ◌<◌, ◌^◌, length, IfOk};
ghost use Rattle.lisp_program.specs.Program.{program_of};
ghost use Rattle.lisp_code.specs.CodeOf.{names_of, stretches_of};
ghost use Rattle.lisp_code.specs.Lines.{seat_of};

use lisp_base::id::{FunctionName, SymbolId};
use lisp_base::memory::Memory;
use lisp_program::form::Program;
use std::alloc::Global;
use std::collections::BTreeMap;
use std::marker::Model;

/// The names of functions in order, and the number of each symbol that is one of them. Contracts see the names.
#[derive(Drop)]
pub struct Names {
    names: Vec<FunctionName>,
    seats: BTreeMap<u32, u32>,
}

impl Model for Names {
    ghost use Rattle.std.specs.Prelude.{List};
    ghost use Rattle.lisp_base.specs.declared.id.FunctionName.{FunctionName};

    ghost Value = { List FunctionName };

    ghost view = { λ n. n.names.items };

    ghost use Rattle.form_compiler.specs.inside.Seats.{AreSeats};

    ghost invariant = { λ n. AreSeats n.seats 0 n.names.items };
}

impl Names {
    ghost use Rattle.std.specs.Prelude.{drop};
    ghost use Rattle.form_compiler.specs.inside.Seats.{AreSeats};

    /// The names of a program's functions, and that of the function of `terminate-thread` after them.
    pub fn of_program(alloc: Global, program: &Program) -> Result<Self, Memory>
        requires { length program.now.functions < 2 ^ 31 }
        ensures { IfOk result (λ n. n ≡ names_of (stretches_of (program_of program.now))) }
    {
        let mut names = Vec::new(alloc);
        for function in program.functions() {
            names.push(function.name())?;
        }
        names.push(FunctionName::AbortThread)?;
        Names::of(alloc, names)
    }

    /// These names. Of two functions with one name the first is found.
    fn of(alloc: Global, names: Vec<FunctionName>) -> Result<Self, Memory>
        requires { length names.items < 2 ^ 32 }
        ensures { IfOk result (λ n. n ≡ names.items) }
    {
        let mut seats = BTreeMap::new(alloc);
        for seat in (0..names.as_slice().len()).rev() {
            if let FunctionName::Named(symbol) = names[seat] {
                seats.insert(symbol.0, seat as u32)?;
            }
        }
        Ok(Names { names, seats })
    }

    /// The number of the first function with this symbol as its name: `None` where no function has it.
    pub fn seat(&self, symbol: SymbolId) -> Option<u32>
        ensures { result ≡ seat_of symbol self.now }
    {
        self.seats.get(&symbol.0).copied()
    }
}
