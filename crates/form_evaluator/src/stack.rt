ghost use Rattle.std.specs.Prelude.{◌≡◌, [], ◌∷◌, length, take, drop, OnOk, IfOk};
ghost use Rattle.form_evaluator.specs.inside.Lists.{front_of};

use lisp_base::memory::Memory;
use std::alloc::Global;
use std::marker::Model;

/// A stack, which contracts see as a list with its top first.
#[derive(Drop)]
pub(crate) struct Stack<T> {
    items: Vec<T>,
}

impl<T> Model for Stack<T> {
    ghost use Rattle.std.specs.Prelude.{List, reverse};

    ghost Value = { List T };

    ghost view = { λ s. reverse s.items.items };
}

impl<T: Drop> Stack<T> {
    /// An empty stack. It takes no memory.
    pub(crate) fn new(alloc: Global) -> Self
        ensures { result ≡ [] }
    {
        Stack {
            items: Vec::new(alloc),
        }
    }

    /// How many items there are.
    #[tactic(auto, using(crate::proofs::Advances::length_reversed))]
    pub(crate) fn len(&self) -> usize
        ensures { result ≡ length self.now }
    {
        self.items.as_slice().len()
    }

    /// Puts an item on top.
    pub(crate) fn push(&mut self, item: T) -> Result<(), Memory>
        ensures { OnOk result (self.new ≡ item ∷ self.old) }
    {
        self.items.push(item)?;
        Ok(())
    }

    /// Takes the top item away and gives it, where there is one.
    pub(crate) fn take(&mut self) -> Option<T>
        ensures item { result ≡ front_of self.old }
        ensures rest { self.new ≡ drop 1 self.old }
    {
        self.items.pop()
    }

    /// Takes the top item away, where there is one.
    pub(crate) fn pop(&mut self)
        ensures { self.new ≡ drop 1 self.old }
    {
        let _ = self.items.pop();
    }

    /// Takes all items away.
    pub(crate) fn clear(&mut self)
        ensures { self.new ≡ [] }
    {
        self.items.clear();
    }
}

impl<T: Copy + Drop> Stack<T> {
    /// The top item.
    pub(crate) fn front(&self) -> Option<T>
        ensures { result ≡ front_of self.now }
    {
        self.items.last().copied()
    }

    /// Takes so many items off the top, and gives them as a stack of their own.
    #[tactic(auto, using(crate::proofs::Advances::front_reversed, crate::proofs::Advances::rest_reversed))]
    pub(crate) fn take_front(&mut self, alloc: Global, count: usize) -> Result<Stack<T>, Memory>
        ensures front { IfOk result (λ front. front ≡ take count self.old) }
        ensures rest { OnOk result (self.new ≡ drop count self.old) }
    {
        let items = self.items.as_slice();
        let kept = items.len().saturating_sub(count);
        let front = Vec::from_slice(alloc, &items[kept..])?;
        self.items.truncate(kept);
        Ok(Stack { items: front })
    }
}
