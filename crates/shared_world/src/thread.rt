ghost use Rattle.std.specs.Prelude.{◌≡◌};
ghost use Rattle.world_semantics.specs.Effect.{phase_after};
ghost use Rattle.world_semantics.specs.declared.phase.Phase.TheVariants as phase;

use std::marker::Model;
pub use world_semantics::phase::{Ending, Phase};

/// What all threads see of a thread: whether it is alive, or how it ended.
#[derive(Drop)]
pub struct ThreadRecord {
    phase: Phase,
}

impl Model for ThreadRecord {
    ghost use Rattle.world_semantics.specs.declared.phase.Phase.{Phase};

    ghost Value = { Phase };

    ghost view = { λ r. r.phase };
}

impl ThreadRecord {
    /// A thread that is alive. It takes no memory.
    pub fn new() -> Self
        ensures { result ≡ phase.Alive }
    {
        ThreadRecord {
            phase: Phase::Alive,
        }
    }

    /// Whether it is alive, or how it ended.
    pub fn phase(&self) -> Phase
        ensures { result ≡ self.now }
    {
        self.phase
    }

    /// It ends so. One that has ended stays as it ended.
    pub fn finish(&mut self, ending: Ending)
        ensures { self.new ≡ phase_after ending self.old }
    {
        if let Phase::Alive = self.phase {
            self.phase = Phase::Ended(ending);
        }
    }
}
