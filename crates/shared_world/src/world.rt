ghost use Rattle.std.specs.Prelude.{◌≡◌, ◌↔◌, ◌<◌, Some, length, slice_get, IfOk, IfSome, IsSome};
ghost use Rattle.world_semantics.specs.Effect.{phases_after, value_reply};
ghost use Rattle.world_semantics.specs.World.{first_world, global_of};
ghost use Rattle.shared_world.specs.Doing.{Did};

use crate::globals;
use crate::thread::ThreadRecord;
pub use lisp_base::id::{Actor, SymbolId, ThreadId};
use lisp_base::memory;
pub use lisp_base::value::Value;
use std::alloc;
use std::marker::Model;
pub use world_semantics::entry::Entry;
use world_semantics::global::Global;
pub use world_semantics::op::{Op, Reply};
use world_semantics::phase::Ending;

/// What became of an operation.
#[derive(Clone, Copy, Debug, PartialEq, Eq)]
pub enum Outcome {
    /// It is done, with this reply.
    Done(Reply),
    /// What it waits for is not there.
    Waits,
    /// Memory ran out.
    Memory,
}

/// The shared objects: the special variables with their global values, and the threads that were made.
#[derive(Drop)]
pub struct World {
    globals: Vec<Global>,
    threads: Vec<ThreadRecord>,
}

impl Model for World {
    ghost use Rattle.world_semantics.specs.World.{World};

    ghost Value = { World };

    ghost view = { λ w. record { globals = w.globals.items; phases = w.threads.items } };
}

impl World {
    /// The objects before the first operation: no special variable has a value, and main is the only thread, and alive. It errs where
    /// memory runs out.
    pub fn new(alloc: alloc::Global, specials: &[SymbolId]) -> Result<Self, memory::Memory>
        ensures { IfOk result (λ w. w ≡ first_world specials.now) }
    {
        let globals = globals::unbound(alloc, specials)?;
        let mut threads = Vec::new(alloc);
        threads.push(ThreadRecord::new())?;
        Ok(World { globals, threads })
    }

    /// Does an operation of an actor. Where it waits, or where memory runs out, nothing changes.
    pub fn do_op(&mut self, by: Actor, op: &Op) -> Outcome
        ensures { Did op.now by self.old result self.new }
    {
        match op {
            Op::Get(symbol) => Outcome::Done(self.value_reply(*symbol)),
            Op::Set(symbol, value) => {
                globals::write(&mut self.globals, *symbol, *value);
                Outcome::Done(Reply::Okay)
            },
            Op::Boundp(symbol) => Outcome::Done(Reply::Truth(self.global(*symbol).is_some())),
            Op::Out(_) => Outcome::Done(Reply::Okay),
            Op::Finish(ending) => {
                finish(&mut self.threads, by, *ending);
                Outcome::Done(Reply::Okay)
            },
        }
    }

    /// The reply to `get`.
    fn value_reply(&self, symbol: SymbolId) -> Reply
        ensures { result ≡ value_reply (global_of symbol self.now.globals) }
    {
        match self.global(symbol) {
            Some(value) => Reply::Value(value),
            None => Reply::Unbound,
        }
    }

    /// What is seen of a thread: `None` exactly where it was not made. It takes no memory.
    pub fn thread(&self, thread: ThreadId) -> Option<&ThreadRecord>
        ensures given { IsSome result ↔ thread < length self.now.phases }
        ensures same { IfSome result (λ r. slice_get self.now.phases thread ≡ Some r.now) }
    {
        self.threads.as_slice().get(thread.number() as usize)
    }

    /// The global value of a special variable: `None` exactly where it has none, or is not special. It takes no memory.
    pub fn global(&self, symbol: SymbolId) -> Option<Value>
        ensures { result ≡ global_of symbol self.now.globals }
    {
        globals::value_of(self.globals.as_slice(), symbol)
    }
}

/// Ends the thread that an actor is. The runner is no thread.
fn finish(threads: &mut [ThreadRecord], by: Actor, ending: Ending)
    ensures { threads.new ≡ phases_after by ending threads.old }
{
    if let Actor::Thread(thread) = by {
        let at = thread.number() as usize;
        if at < threads.len() {
            threads[at].finish(ending);
        }
    }
}
