ghost use Rattle.std.specs.Prelude.{◌≡◌, ◌<◌, ◌++◌, ◌∷◌, [], length, Contains, ◌↔◌, IsSome, IfSome, IfNone, IfOk, OnErr, slice_get, option_copied};
ghost use Rattle.symbol_table.specs.Names.{Interns, IsTable};

use crate::NAMES;
use crate::error::InternError;
use indexmap::IndexSet;
use lisp_base::memory::Memory;
use std::alloc::Global;
use std::marker::Model;

/// Names in the order of their numbers, from 0. All are different.
#[derive(Debug, Drop)]
pub struct Table {
    names: IndexSet<String>,
}

impl Model for Table {
    ghost use Rattle.std.specs.Prelude.{ℕ, List, map, string_bytes};
    ghost use Rattle.symbol_table.specs.Names.{IsTable};

    ghost Value = { List (List ℕ) };

    ghost view = { λ t. map string_bytes t.names.keys };

    ghost invariant = { λ t. IsTable (map string_bytes t.names.keys) };
}

impl Table {
    /// No names. It takes no memory.
    pub fn new(alloc: Global) -> Self
        ensures { result ≡ [] }
    {
        Table {
            names: IndexSet::new(alloc),
        }
    }

    /// The number of a name that is there.
    fn number(&self, name: &str) -> Option<u32>
        ensures known { IfSome result (λ number. slice_get self.now number ≡ Some name.now) }
        ensures unknown { IfNone result (¬ Contains self.now name.now) }
        ensures table { IsTable self.now }
    {
        let index = self.names.get_index_of(name)?;
        Some(index as u32)
    }

    /// How many names there are.
    fn len(&self) -> u32
        ensures count { result ≡ length self.now }
        ensures table { IsTable self.now }
    {
        self.names.len() as u32
    }

    /// Puts a new name after the others, and gives its number. Where memory runs out the names are as they were.
    pub fn push(&mut self, name: &str) -> Result<u32, Memory>
        requires new { ¬ Contains self.old name.now }
        requires room { length self.old < NAMES }
        ensures number { IfOk result (λ number. number ≡ length self.old) }
        ensures added { IfOk result (λ _. self.new ≡ self.old ++ name.now ∷ []) }
        ensures memory { OnErr result (self.new ≡ self.old) }
        ensures table { IsTable self.new }
    {
        let number = self.len();
        let owned = String::from_str(*self.names.allocator(), name)?;
        self.names.insert(owned)?;
        Ok(number)
    }

    /// The number of a name, which is put after the others where it is new.
    pub fn intern(&mut self, name: &str) -> Result<u32, InternError>
        ensures interned { Interns self.old self.new name.now result }
        ensures table { IsTable self.new }
    {
        if let Some(number) = self.number(name) {
            return Ok(number);
        }
        if self.len() == NAMES {
            return Err(InternError::TooMany);
        }
        Ok(self.push(name)?)
    }

    /// The name with a number: `None` exactly where no name has it.
    pub fn name(&self, number: u32) -> Option<&str>
        ensures name { option_copied result ≡ slice_get self.now number }
        ensures given { IsSome result ↔ (number < length self.now) }
        ensures table { IsTable self.now }
    {
        let name = self.names.get_index(number as usize)?;
        Some(name.as_str())
    }
}
