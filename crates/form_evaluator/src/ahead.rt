ghost use Rattle.std.specs.Prelude.{◌≡◌, List, [], drop};
ghost use Rattle.form_evaluator.specs.inside.Lists.{front_of};

use plain_program::steps::Step;
use std::marker::Model;

/// The steps that are still ahead, which contracts see as their list.
#[derive(Drop)]
pub(crate) struct Ahead {
    steps: Vec<Step>,
    at: usize,
}

impl Model for Ahead {
    ghost use Rattle.std.specs.Prelude.{◌≤◌, List, drop, length};
    ghost use Rattle.plain_program.specs.declared.steps.Step.{Step};

    ghost Value = { List Step };

    ghost view = { λ a. drop a.at a.steps.items };

    ghost invariant = { λ a. a.at ≤ length a.steps.items };
}

impl Ahead {
    /// All of these steps are ahead.
    pub(crate) fn of(steps: Vec<Step>) -> Self
        ensures { result ≡ steps.items }
    {
        Ahead { steps, at: 0 }
    }

    /// The next step.
    pub(crate) fn front(&self) -> Option<Step>
        ensures { result ≡ front_of self.now }
    {
        self.steps.get(self.at).copied()
    }

    /// Passes over the next step, where there is one.
    pub(crate) fn advance(&mut self)
        ensures { self.new ≡ drop 1 self.old }
    {
        if self.at < self.steps.len() {
            self.at += 1;
        }
    }

    /// Passes over so many steps, or over all where there are fewer.
    pub(crate) fn skip(&mut self, count: usize)
        ensures { self.new ≡ drop count self.old }
    {
        let left = self.steps.as_slice().len() - self.at;
        self.at += count.min(left);
    }

    /// Passes over all steps.
    pub(crate) fn stop(&mut self)
        ensures { self.new ≡ [] }
    {
        self.at = self.steps.len();
    }
}
