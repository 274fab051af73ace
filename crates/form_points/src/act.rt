use lisp_base::condition::Condition;
use lisp_base::id::{FunctionName, SymbolId};
use lisp_base::value::Value;
use lisp_program::function::{Primitive, Printing, Service};

/// A local point that opens no frame. Operands are the values at hand, the newest first.
#[derive(Clone, Copy, Debug, PartialEq, Eq)]
pub enum Act {
    /// Gives a constant.
    Push(Value),
    /// Gives a function to the form in whose function's seat it stands.
    PushFunction(FunctionName),
    /// Gives the present thread.
    PushThread,
    /// Gives the lexical variable with this number.
    ReadLocal(u32),
    /// Writes the first operand to the lexical variable with this number, and keeps it as an operand.
    WriteLocal(u32),
    /// Binds the lexical variable with this number to the operand that has so many others before it, which it takes away.
    BindLocal(u32, u32),
    /// Forgets the lexical variable that was bound last.
    ForgetLocal,
    /// Takes the first operand away.
    Discard,
    /// Takes the operands of a function, and gives its value.
    Apply(Primitive),
    /// Takes so many operands as the arguments of a function of the program, whose body comes next in a Call frame.
    Call(SymbolId, u32),
    /// Takes a value, and leaves to the Block frame whose entry has this number.
    ReturnFrom(u32),
    /// Takes a tag and a value, and leaves to the Catch frame with that tag.
    Throw,
    /// Signals a condition.
    Signal(Condition),
    /// Leaves to the thread's base, which is aborted.
    AbortThread,
    /// Takes a value, and leaves to the thread's base, which returns it.
    ReturnFromThread,
}

/// A point that opens a frame. All but a binding give their body no operand.
#[derive(Clone, Copy, Debug, PartialEq, Eq)]
pub enum Opening {
    /// Binds a special variable to the operand that has so many others before it, which it takes away.
    Bind(SymbolId, u32),
    /// A block, whose entry has this number.
    Block(u32),
    /// Takes a tag.
    Catch,
    /// Remembers whether interruptions were allowed, under this number, and allows none.
    WithoutInterrupts(u32),
    /// Allows interruptions where what is remembered under this number says that they were allowed.
    AllowWithInterrupts(u32),
    /// Enables interruptions where they are allowed.
    WithInterrupts,
    /// Takes the seconds and the override that are written, and sets the deadline.
    Deadline { seconds: bool, replaces: bool },
}

/// A point that is an operation on shared objects, or may be one.
#[derive(Clone, Copy, Debug, PartialEq, Eq)]
pub enum Question {
    /// Prints: takes the arguments of the function, and gives its value.
    Print(Printing),
    /// Reads a special variable: its binding in this thread, or else the global value.
    Read(SymbolId),
    /// Writes the first operand to a special variable, to its binding in this thread or else globally, and keeps it as an operand.
    Write(SymbolId),
    /// Whether a special variable has a global value.
    IsBound(SymbolId),
    /// Takes a value, writes it to a special variable globally, and gives the symbol.
    Define(SymbolId),
    /// Takes two values, writes the second where the variable is `eq` to the first, and gives what the variable held.
    CompareAndSwap(SymbolId),
    /// The first point of a service takes its operands, and its last gives its value.
    Serve(Service, Step),
    /// Takes a value, with which the thread ends.
    EndThread,
}

/// One of the operations that a service is made of. A timeout of NIL counts as not written: `Try` does what `Main` does then, and
/// `Clock` of a `condition-wait` what `Begin` does, and each settles the matter.
#[derive(Clone, Copy, Debug, PartialEq, Eq)]
pub enum Step {
    /// The clock's reading, from which a time counts.
    Clock,
    /// The operation for which the service is named.
    Main,
    /// `try` or `poll`, which does not wait. It settles the matter where the mutex was free or the thread has ended, and where
    /// `:waitp` is NIL. Where a `:waitp` is written and no timeout, it does what `Main` does if that is not NIL, and settles the matter.
    Try,
    /// `wait-begin`: waits in a waitqueue, with the mutex free.
    Begin,
    /// `wake`: waits to be notified. A timeout settles the matter.
    Wake,
    /// `regrab`: waits for the mutex.
    Regrab,
}
