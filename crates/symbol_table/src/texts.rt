ghost use Rattle.std.specs.Prelude.{◌≡◌, ◌<◌, ◌↔◌, [], length, IsSome, slice_get, option_copied};
ghost use Rattle.symbol_table.specs.Names.{Interns, IsTable};

use crate::error::InternError;
use crate::table::Table;
use lisp_base::id::StringId;
use lisp_base::memory::Memory;
use std::alloc::Global;
use std::marker::Model;

/// The texts of the string literals, in the order of their numbers. All are different.
#[derive(Debug, Drop)]
pub struct Texts {
    table: Table,
}

impl Model for Texts {
    ghost use Rattle.std.specs.Prelude.{ℕ, List};

    ghost Value = { List (List ℕ) };

    ghost view = { λ t. t.table };
}

impl Texts {
    /// No texts. It takes no memory.
    pub fn new(alloc: Global) -> Result<Texts, Memory>
        ensures { result ≡ Ok [] }
    {
        Ok(Texts {
            table: Table::new(alloc),
        })
    }

    /// The string literal with a text. A text that is known keeps its number, and a new one gets the next. After an error the texts
    /// are as they were.
    pub fn intern(&mut self, text: &str) -> Result<StringId, InternError>
        ensures interned { Interns self.old self.new text.now result }
        ensures table { IsTable self.new }
    {
        let number = self.table.intern(text)?;
        Ok(StringId(number))
    }

    /// The text of a string literal: `None` exactly where no literal has that number.
    pub fn text(&self, id: StringId) -> Option<&str>
        ensures text { option_copied result ≡ slice_get self.now id }
        ensures given { IsSome result ↔ (id < length self.now) }
        ensures table { IsTable self.now }
    {
        self.table.name(id.0)
    }
}
