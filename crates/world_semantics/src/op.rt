use crate::phase::Ending;
use lisp_base::id::SymbolId;
use lisp_base::value::Value;

/// What a printing function prints.
#[derive(Clone, Copy, Debug, PartialEq, Eq)]
pub enum Printed {
    /// By `print`: a newline, the value escaped, and a space.
    Print(Value),
}

/// An operation on shared objects.
#[derive(Clone, Copy, Debug, PartialEq, Eq)]
pub enum Op {
    /// `get`: the global value of a special variable.
    Get(SymbolId),
    /// `set`: writes the global value of a special variable.
    Set(SymbolId, Value),
    /// `boundp`: whether a special variable has a global value.
    Boundp(SymbolId),
    /// `out`: adds characters to the output.
    Out(Printed),
    /// `finish`: ends the thread that does it.
    Finish(Ending),
}

/// The reply to an operation.
#[derive(Clone, Copy, Debug, PartialEq, Eq)]
pub enum Reply {
    /// `ok`: it is done, and there is nothing more to say.
    Okay,
    /// The value that was asked for.
    Value(Value),
    /// `unbound`: there is no value.
    Unbound,
    /// `T` or `NIL`: whether what was asked holds.
    Truth(bool),
}
