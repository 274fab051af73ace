ghost use Rattle.std.specs.Prelude.{ℕ, ◌≤◌};
ghost use Rattle.lisp_base.specs.declared.id.Actor.{Actor};

use lisp_base::id::Actor;
use std::sync::atomic::{AtomicU64, Ordering};

/// Something that tells the time, and lets it pass.
pub trait Clock {
    /// Whether an actor may read this time at this point.
    ghost may_read: { Self → Actor → ℕ → ℕ → Type 0 };

    /// Whether passing, at this point, to the time that is due may end at this time.
    ghost may_pass: { Self → ℕ → ℕ → ℕ → Type 0 };

    /// The time in microseconds, as this actor reads it at this point.
    fn read(&self, by: Actor, point: u64) -> u64
        ensures { may_read self.now by point result };

    /// Lets time pass until it is `due`, and returns the time that it then is. Both are in microseconds.
    fn pass_to(&self, point: u64, due: u64) -> u64
        ensures { may_pass self.now point due result };
}

/// A clock that goes on only in calls of `pass_to`. It begins at 0.
#[derive(Drop)]
pub struct VirtualClock {
    time: AtomicU64,
}

impl VirtualClock {
    /// A clock that stands at 0.
    pub fn new() -> Self {
        VirtualClock {
            time: AtomicU64::new(0),
        }
    }
}

impl Clock for VirtualClock {
    ghost may_read = { λ _ _ _ _. Unit {0} };

    ghost may_pass = { λ _ _ due answer. due ≤ answer };

    fn read(&self, _by: Actor, _point: u64) -> u64 {
        self.time.load(Ordering::SeqCst)
    }

    fn pass_to(&self, _point: u64, due: u64) -> u64 {
        let before = self.time.fetch_max(due, Ordering::SeqCst);
        before.max(due)
    }
}

#[cfg(test)]
mod tests {
    use super::*;

    fn time_of(clock: &(impl Clock + Sync)) -> u64 {
        clock.read(Actor::Runner, 7)
    }

    #[test]
    fn the_time_never_falls(rt: HostRuntime) {
        let clock = VirtualClock::new();
        assert_eq!(rt; time_of(&clock), 0);
        for (due, now) in [(5, 5), (3, 5), (9, 9)] {
            assert_eq!(rt; clock.pass_to(1, due), now, "passed to {due}");
            assert_eq!(rt; time_of(&clock), now, "after {due}");
        }
    }
}
