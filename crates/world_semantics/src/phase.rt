use lisp_base::condition::Condition;
use lisp_base::value::Value;

/// How a thread ends.
#[derive(Clone, Copy, Debug, PartialEq, Eq)]
pub enum Ending {
    /// It returned this value.
    Returned(Value),
    /// It was aborted with this condition, or with none.
    Aborted(Option<Condition>),
}

/// Whether a thread is alive or how it ended, as all threads see it.
#[derive(Clone, Copy, Debug, PartialEq, Eq)]
pub enum Phase {
    Alive,
    Ended(Ending),
}
