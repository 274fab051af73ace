ghost use Rattle.std.specs.Prelude.{◌≡◌};
ghost use Rattle.lisp_base.specs.Limits.{Numbers, Limit, AreSteps, IsLook, AreWorkers};

use std::marker::Model;
use thiserror::Error;

/// The numbers that a run is given.
#[derive(Clone, Copy, Debug, PartialEq, Eq)]
pub struct Limits {
    steps: u32,
    look: u32,
    workers: u32,
}

impl Model for Limits {
    ghost use Rattle.lisp_base.specs.Limits.{Numbers, AreInRange};

    ghost Value = { Numbers };

    ghost view = { λ l. record { steps = l.steps; look = l.look; workers = l.workers } };

    ghost invariant = { λ l. AreInRange (record { steps = l.steps; look = l.look; workers = l.workers }) };

    ghost inverse = { λ n. record { steps = n.steps; look = n.look; workers = n.workers } };
}

/// Which of the numbers is the first out of its range.
#[derive(Clone, Copy, Debug, PartialEq, Eq, Error)]
pub enum LimitsError {
    /// The limit of points is not from 1 to 1,000,000.
    #[error("the limit of points is out of range")]
    StepsOutOfRange,
    /// The number of enabled points after which a thread looks is not from 1 to 256.
    #[error("the number of points to a look is out of range")]
    LookOutOfRange,
    /// The number of workers is not from 1 to 64.
    #[error("the number of workers is out of range")]
    WorkersOutOfRange,
}

impl Limits {
    /// The limits with these numbers. It errs with the first that is out of range.
    pub fn new(steps: u32, look: u32, workers: u32) -> Result<Limits, LimitsError>
        ensures { Limit (record { steps = steps; look = look; workers = workers }) result }
    {
        if !(1..=1_000_000).contains(&steps) {
            return Err(LimitsError::StepsOutOfRange);
        }
        if !(1..=256).contains(&look) {
            return Err(LimitsError::LookOutOfRange);
        }
        if !(1..=64).contains(&workers) {
            return Err(LimitsError::WorkersOutOfRange);
        }
        Ok(Limits {
            steps,
            look,
            workers,
        })
    }

    /// How many points each thread may take, from 1 to 1,000,000.
    pub fn steps(self) -> u32
        ensures value { result ≡ self.steps }
        ensures range { AreSteps result }
    {
        self.steps
    }

    /// After how many enabled points a thread looks for interruptions, from 1 to 256.
    pub fn look(self) -> u32
        ensures value { result ≡ self.look }
        ensures range { IsLook result }
    {
        self.look
    }

    /// How many workers run the threads, from 1 to 64.
    pub fn workers(self) -> u32
        ensures value { result ≡ self.workers }
        ensures range { AreWorkers result }
    {
        self.workers
    }
}
