ghost use Rattle.std.specs.Prelude.{◌≡◌, ◌↔◌, ◌<◌, ◌≤◌, [], length, IfOk, OnOk, OnErr, IsOk, IsSome, IsTrue, IsFalse};
ghost use Rattle.binding_stack.specs.Stack.{word_of, with_word, with_binding, kept};
ghost use Rattle.binding_stack.specs.inside.Entries.{IsLast};

use lisp_base::id::SymbolId;
use lisp_base::memory::Memory;
use std::alloc::Global;
use std::marker::Model;

/// How many bindings there may be.
pub const BINDINGS: u32 = 4096;

/// There is no room for another binding.
#[derive(Clone, Copy, Debug, PartialEq, Eq)]
pub struct Full;

/// A binding of a symbol, and the word that it holds.
#[derive(Clone, Copy, Debug, PartialEq, Eq)]
struct Entry {
    symbol: SymbolId,
    word: u64,
}

/// The bindings in force, which contracts see as a list with the innermost first.
#[derive(Debug, Drop)]
pub struct BindingStack {
    entries: Vec<Entry>,
}

impl Model for BindingStack {
    ghost use Rattle.std.specs.Prelude.{List};
    ghost use Rattle.binding_stack.specs.Stack.{Bound};

    ghost Value = { List Bound };

    ghost use Rattle.std.specs.Prelude.{[], length, ◌≤◌, vec_capacity};
    ghost use Rattle.binding_stack.specs.inside.Entries.{stacked};
    ghost use Rattle.binding_stack.specs.declared.bindings.TheConstants.{BINDINGS};

    ghost view = { λ s. stacked [] s.entries.items };

    ghost invariant = { λ s. (length s.entries.items ≤ BINDINGS) × (BINDINGS ≤ vec_capacity s.entries) };
}

impl BindingStack {
    /// No bindings. All memory is taken here.
    pub fn new(alloc: Global) -> Result<BindingStack, Memory>
        ensures { IfOk result (λ s. s ≡ []) }
    {
        let entries = Vec::with_capacity(alloc, BINDINGS as usize)?;
        Ok(BindingStack { entries })
    }

    /// How many bindings there are.
    #[tactic(auto, using(crate::proofs::Entries::length_stacked))]
    pub fn height(&self) -> u32
        ensures count { result ≡ length self.now }
        ensures limit { result ≤ BINDINGS }
    {
        self.entries.len() as u32
    }

    /// Binds a symbol to a word, inside the bindings that are there: `Full` exactly where there
    /// are as many as there may be.
    #[tactic(auto, using(crate::proofs::Entries::length_stacked, crate::proofs::Entries::stacked_push))]
    pub fn bind(&mut self, symbol: SymbolId, word: u64) -> Result<(), Full>
        ensures room { IsOk result ↔ (length self.old < BINDINGS) }
        ensures ok { OnOk result (self.new ≡ with_binding symbol word self.old) }
        ensures full { OnErr result (self.new ≡ self.old) }
    {
        if self.height() == BINDINGS {
            return Err(Full);
        }
        self.entries.push_reserved(Entry { symbol, word });
        Ok(())
    }

    /// Takes the innermost bindings away, down to so many.
    #[tactic(auto, using(crate::proofs::Entries::kept_stacked, crate::proofs::Entries::length_stacked))]
    pub fn unbind_to(&mut self, height: u32)
        requires { height ≤ length self.old }
        ensures { self.new ≡ kept height self.old }
    {
        self.entries.truncate(height as usize);
    }

    /// The word of the innermost binding of a symbol: `None` exactly where there is none.
    #[tactic(auto, using(crate::proofs::Entries::word_none, crate::proofs::Entries::word_last))]
    pub fn get(&self, symbol: SymbolId) -> Option<u64>
        ensures { result ≡ word_of symbol self.now }
    {
        let at = last_of(self.entries.as_slice(), symbol)?;
        Some(self.entries[at].word)
    }

    /// Writes the innermost binding of a symbol: false, and nothing changes, exactly where there is none.
    #[tactic(auto, using(crate::proofs::Entries::writes))]
    pub fn set(&mut self, symbol: SymbolId, word: u64) -> bool
        ensures bound { IsTrue result ↔ IsSome (word_of symbol self.old) }
        ensures written { self.new ≡ with_word symbol word self.old }
        ensures unbound { IsFalse result → self.new ≡ self.old }
    {
        let Some(at) = last_of(self.entries.as_slice(), symbol) else {
            return false;
        };
        self.entries[at].word = word;
        true
    }
}

/// The place of the last entry of a symbol.
fn last_of(entries: &[Entry], symbol: SymbolId) -> Option<usize>
    ensures { IsLast symbol entries.now result }
{
    entries.iter().rposition(|entry| entry.symbol == symbol)
}
