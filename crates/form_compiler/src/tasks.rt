//! The tasks that are still to be done.
ghost use Rattle.std.specs.Prelude.{◌≡◌, [], ◌∷◌, ◌++◌, OnOk};
ghost use Rattle.form_compiler.specs.inside.Lists.{front_of, behind_front};

use crate::task::Task;
use lisp_base::memory::Memory;
use std::alloc::Global;
use std::marker::Model;

/// Tasks, of which contracts see the next one first.
#[derive(Drop)]
pub struct Tasks {
    items: Vec<Task>,
}

impl Model for Tasks {
    ghost use Rattle.std.specs.Prelude.{List, reverse};
    ghost use Rattle.form_compiler.specs.declared.task.Task.{Task};

    ghost Value = { List Task };

    ghost view = { λ t. reverse t.items.items };
}

impl Tasks {
    /// No tasks. It takes no memory.
    pub fn new(alloc: Global) -> Self
        ensures { result ≡ [] }
    {
        Tasks {
            items: Vec::new(alloc),
        }
    }

    /// Puts a task before the others.
    pub fn push(&mut self, task: Task) -> Result<(), Memory>
        ensures { OnOk result (self.new ≡ task ∷ self.old) }
    {
        self.items.push(task)?;
        Ok(())
    }

    /// Puts tasks before the others: the first of them is the next one.
    pub fn put(&mut self, tasks: &[Task]) -> Result<(), Memory>
        ensures { OnOk result (self.new ≡ tasks.now ++ self.old) }
    {
        for task in tasks.iter().rev().copied() {
            self.push(task)?;
        }
        Ok(())
    }

    /// Takes the next task.
    pub fn take(&mut self) -> Option<Task>
        ensures task { result ≡ front_of self.old }
        ensures others { self.new ≡ behind_front self.old }
    {
        self.items.pop()
    }
}
