ghost use Rattle.session_tests.specs.Sure.{IsSureStatus};

use lisp_edge::clock::VirtualClock;
use lisp_edge::sure::{SureSink, SureSource};
use lisp_session::top::run_one;
use std::alloc::Global;

/// Runs the program in a source that never fails, and writes to a sink that never fails: so the status is neither 5 nor 6.
pub fn run_surely(
    alloc: Global,
    words: &[String],
    source: &mut SureSource,
    sink: &mut SureSink,
) -> u8
    ensures { IsSureStatus result }
{
    run_one(alloc, words, source, sink, &VirtualClock::new())
}
