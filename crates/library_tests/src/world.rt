//! Operations on the shared objects, one after the other.
use lisp_base::id::{SymbolId, ThreadId};
use lisp_base::memory::Memory;
use lisp_base::value::Value;
use shared_world::thread::{Ending, Phase};
use shared_world::world::{Actor, Op, Outcome, Reply, World};

/// Does an operation of main.
fn by_main(world: &mut World, op: &Op) -> Outcome {
    world.do_op(Actor::Thread(ThreadId::main()), op)
}

#[test]
fn operations_are_done(rt: HostRuntime) -> Result<(), Memory> {
    let mut world = World::new(rt.alloc(), &[SymbolId(5), SymbolId(6)])?;
    let unbound = by_main(&mut world, &Op::Get(SymbolId(6)));
    assert_eq!(rt; unbound, Outcome::Done(Reply::Unbound));
    let written = by_main(
        &mut world,
        &Op::Set(SymbolId(6), Value::symbol(SymbolId(7))),
    );
    assert_eq!(rt; written, Outcome::Done(Reply::Okay));
    let found = by_main(&mut world, &Op::Get(SymbolId(6)));
    assert_eq!(rt;
        found,
        Outcome::Done(Reply::Value(Value::symbol(SymbolId(7))))
    );
    let other = by_main(&mut world, &Op::Boundp(SymbolId(5)));
    assert_eq!(rt; other, Outcome::Done(Reply::Truth(false)));
    assert!(rt; world.global(SymbolId(6)).is_some());
    assert!(rt; world.global(SymbolId(5)).is_none());
    assert!(rt; world.global(SymbolId(8)).is_none());
    Ok(())
}

#[test]
fn a_thread_ends_once(rt: HostRuntime) -> Result<(), Memory> {
    let mut world = World::new(rt.alloc(), &[])?;
    let finished = by_main(&mut world, &Op::Finish(Ending::Returned(Value::nil())));
    assert_eq!(rt; finished, Outcome::Done(Reply::Okay));
    let again = by_main(&mut world, &Op::Finish(Ending::Aborted(None)));
    assert_eq!(rt; again, Outcome::Done(Reply::Okay));
    let record = world.thread(ThreadId::main()).expect(&rt, "main was made");
    assert_eq!(rt;
        record.phase(),
        Phase::Ended(Ending::Returned(Value::nil()))
    );
    let first = ThreadId::new(1).expect(&rt, "1 is the number of a thread");
    assert!(rt; world.thread(first).is_none());
    Ok(())
}
