ghost use Rattle.std.specs.Prelude.{◌≡◌, None, Some, [], ◌∷◌, IfOk};
ghost use Rattle.lisp_base.specs.Writing.{Wrote};

use crate::memory::Memory;
use std::alloc::Global;
use std::marker::Model;

/// A list that is being written. When memory runs out, nothing more is written, and `finish` errs. So a
/// function that writes need not check. Contracts see what is written, or nothing where memory ran out.
#[derive(Drop)]
pub struct Writer<T> {
    items: Vec<T>,
    is_full: bool,
}

impl<T> Model for Writer<T> {
    ghost use Rattle.std.specs.Prelude.{List, Option};
    ghost use Rattle.lisp_base.specs.Writing.{shown};

    ghost Value = { Option (List T) };

    ghost view = { λ w. shown w.is_full w.items.items };
}

impl<T: Copy + Drop> Writer<T> {
    /// A writer that has written nothing. It takes no memory.
    pub fn new(alloc: Global) -> Self
        ensures { result ≡ Some [] }
    {
        Writer {
            items: Vec::new(alloc),
            is_full: false,
        }
    }

    /// Writes an item.
    pub fn push(&mut self, item: T)
        ensures { Wrote self.old self.new (item ∷ []) }
    {
        if !self.is_full && self.items.push(item).is_err() {
            self.is_full = true;
        }
    }

    /// Writes these items.
    pub fn extend(&mut self, items: &[T])
        ensures { Wrote self.old self.new items.now }
    {
        if !self.is_full && self.items.extend_from_slice(items).is_err() {
            self.is_full = true;
        }
    }

    /// Takes note that memory ran out.
    pub fn fill(&mut self)
        ensures { self.new ≡ None }
    {
        self.is_full = true;
    }

    /// What was written. It errs where memory ran out.
    pub fn finish(self) -> Result<Vec<T>, Memory>
        ensures { IfOk result (λ items. self ≡ Some items.items) }
    {
        if self.is_full {
            return Err(Memory);
        }
        Ok(self.items)
    }
}
