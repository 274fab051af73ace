ghost use Rattle.std.specs.Prelude.{◌≡◌, [], ◌<◌, ◌↔◌, length, IsSome, IfOk, OnOk, slice_get, option_copied};
ghost use Rattle.symbol_table.specs.Names.{Interns, IsTable, first_symbols};

use crate::error::InternError;
use crate::table::Table;
use lisp_base::id::SymbolId;
use lisp_base::memory::Memory;
use std::alloc::Global;
use std::marker::Model;

/// The names of the symbols, in the order of their numbers. All are different.
#[derive(Debug, Drop)]
pub struct Symbols {
    table: Table,
}

impl Model for Symbols {
    ghost use Rattle.std.specs.Prelude.{ℕ, List};

    ghost Value = { List (List ℕ) };

    ghost view = { λ s. s.table };
}

/// Puts the first five names into a table without names.
fn push_first(table: &mut Table) -> Result<(), Memory>
    requires { table.old ≡ [] }
    ensures { OnOk result (table.new ≡ first_symbols) }
{
    table.push("NIL")?;
    table.push("T")?;
    table.push(":WARN")?;
    table.push(":PUNT")?;
    table.push(":FORCE")?;
    Ok(())
}

impl Symbols {
    /// The names NIL, T, :WARN, :PUNT and :FORCE, numbered 0 to 4.
    pub fn new(alloc: Global) -> Result<Symbols, Memory>
        ensures { IfOk result (λ symbols. symbols ≡ first_symbols) }
    {
        let mut table = Table::new(alloc);
        push_first(&mut table)?;
        Ok(Symbols { table })
    }

    /// The symbol with a name. A name that is known keeps its number, and a new one gets the next. After an error the names are as
    /// they were.
    pub fn intern(&mut self, name: &str) -> Result<SymbolId, InternError>
        ensures interned { Interns self.old self.new name.now result }
        ensures table { IsTable self.new }
    {
        let number = self.table.intern(name)?;
        Ok(SymbolId(number))
    }

    /// The name of a symbol: `None` exactly where no symbol has that number.
    pub fn name(&self, id: SymbolId) -> Option<&str>
        ensures name { option_copied result ≡ slice_get self.now id }
        ensures given { IsSome result ↔ (id < length self.now) }
        ensures table { IsTable self.now }
    {
        self.table.name(id.0)
    }
}
