use lisp_base::memory::Memory;
use lisp_edge::clock::VirtualClock;
use lisp_edge::memory::{MemorySink, MemorySource};
use lisp_session::top::run_one;
use std::alloc::Global;
use std::test::Fail;

/// What was made; a test fails where memory runs out.
pub fn made<T: Drop>(outcome: Result<T, Memory>) -> Result<T, Fail> {
    match outcome {
        Ok(value) => Ok(value),
        Err(Memory) => Err("memory ran out".into()),
    }
}

/// Runs a text over memory: the status, and what the sink holds then.
pub fn run(alloc: Global, text: &[u8]) -> Result<(u8, Vec<u8>), Memory> {
    let mut source = MemorySource::new(Vec::from_slice(alloc, text)?, Vec::new(alloc));
    let mut sink = MemorySink::new(alloc, Vec::new(alloc));
    let status = run_one(alloc, &[], &mut source, &mut sink, &VirtualClock::new());
    Ok((status, Vec::from_slice(alloc, sink.held())?))
}
