use lisp_base::id::SymbolId;
use lisp_base::value::Value;

/// A local point that only changes the values at hand.
#[derive(Clone, Copy, Debug, PartialEq, Eq)]
pub enum Act {
    /// Puts a value before the others.
    Push(Value),
    /// Takes the first value away.
    Discard,
    /// Puts the sum of the first two values in their place.
    Add,
}

/// A point that opens a frame.
#[derive(Clone, Copy, Debug, PartialEq, Eq)]
pub enum Opening {
    /// Binds a special variable to the value that has so many others before it.
    Bind(SymbolId, u32),
}

/// A point that is an operation on shared objects, or may be one.
#[derive(Clone, Copy, Debug, PartialEq, Eq)]
pub enum Question {
    /// Prints the first value, and gives it.
    Print,
    /// Reads a special variable: its binding in this thread, or else the global value.
    Read(SymbolId),
    /// Writes the first value to a special variable, to its binding in this thread or else globally, and gives it.
    Write(SymbolId),
    /// Writes the first value to a special variable globally, and gives the symbol.
    Define(SymbolId),
    /// Ends the thread with the first value.
    EndThread,
}
