use lisp_base::id::Place;
use lisp_base::sequence::Sequence;
use lisp_base::value::Value;
use world_semantics::global::Global;
use world_semantics::phase::Phase;

/// Whether a thread has ended, is out of points or can go on, as its own state shows.
#[derive(Clone, Copy, Debug, PartialEq, Eq)]
pub enum PhaseReport {
    /// It has ended.
    Ended,
    /// It has not ended, and it has no points left.
    OutOfPoints,
    /// It can go on.
    Runnable,
}

/// The word for a kind of open form.
#[derive(Clone, Copy, Debug, PartialEq, Eq)]
pub enum FrameWord {
    Call,
    Bind,
    Block,
    Catch,
    Protect,
    Cleanup,
    Handler,
}

/// An open form: its kind and its place.
#[derive(Clone, Copy, Debug, PartialEq, Eq)]
pub struct OpenForm {
    pub kind: FrameWord,
    pub place: Place,
}

/// What the state of a thread shows: its phase, how many points it took, and its open forms, innermost first.
#[derive(Debug, Drop)]
pub struct ThreadReport {
    pub phase: PhaseReport,
    pub points: u64,
    pub frames: Sequence<OpenForm>,
}

/// What the report says of one thread.
#[derive(Debug, Drop)]
pub struct ThreadLine {
    /// Its name, a string or NIL. The name of main is kept as NIL.
    pub name: Value,
    pub phase: Phase,
    pub machine: ThreadReport,
}

/// The report of the last state: the threads by number, the special variables in order of definition, and the status.
#[derive(Debug, Drop)]
pub struct Report {
    pub threads: Sequence<ThreadLine>,
    pub globals: Sequence<Global>,
    pub status: u8,
}
