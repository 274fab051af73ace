ghost use Rattle.std.specs.Prelude.{◌≡◌, [], ◌∷◌, length, OnOk};
ghost use Rattle.lisp_reader.specs.inside.Stack.{top_of, below};

use lisp_base::memory::Memory;
use std::alloc::Global;
use std::marker::Model;

/// A stack, which contracts see as the list of its items, the top first.
#[derive(Drop)]
pub struct Stack<T> {
    items: Vec<T>,
}

impl<T> Model for Stack<T> {
    ghost use Rattle.std.specs.Prelude.{List, reverse};

    ghost Value = { List T };

    ghost view = { λ s. reverse s.items.items };
}

impl<T: Copy + Drop> Stack<T> {
    /// An empty stack. It takes no memory.
    pub fn new(alloc: Global) -> Self
        ensures { result ≡ [] }
    {
        Stack {
            items: Vec::new(alloc),
        }
    }

    /// Puts an item on top.
    pub fn push(&mut self, item: T) -> Result<(), Memory>
        ensures { OnOk result (self.new ≡ item ∷ self.old) }
    {
        self.items.push(item)?;
        Ok(())
    }

    /// Takes the top away, and gives it.
    pub fn pop(&mut self) -> Option<T>
        ensures top { result ≡ top_of self.old }
        ensures rest { self.new ≡ below self.old }
    {
        self.items.pop()
    }

    /// The top.
    pub fn top(&self) -> Option<T>
        ensures { result ≡ top_of self.now }
    {
        self.items.last().copied()
    }

    /// How many items there are.
    pub fn len(&self) -> usize
        ensures { result ≡ length self.now }
    {
        self.items.len()
    }

    /// The items, the top first.
    pub fn into_vec(self) -> Vec<T>
        ensures { result.items ≡ self }
    {
        let mut items = self.items;
        items.reverse();
        items
    }
}
