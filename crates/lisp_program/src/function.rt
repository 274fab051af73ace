use lisp_base::id::StringId;

/// A function whose work is one local point. Each says how many arguments it has.
#[derive(Clone, Copy, Debug, PartialEq, Eq)]
pub enum Primitive {
    /// `+` of two arguments; the next four take two as well.
    Add,
    Subtract,
    Multiply,
    Max,
    Min,
    /// `1+` of one argument; the next two take one as well.
    Increment,
    Decrement,
    Abs,
    /// `floor` of two arguments; the next three take two as well.
    Floor,
    Truncate,
    Mod,
    Rem,
    /// `=` of two arguments; the next five take two as well.
    Equals,
    Differs,
    Less,
    Greater,
    AtMost,
    AtLeast,
    /// `zerop` of one argument.
    Zerop,
    /// `eq` of two arguments; the next two take two as well.
    Eq,
    Eql,
    Equal,
    /// `not` of one argument; the next four take one as well.
    Not,
    Null,
    Symbolp,
    Integerp,
    Stringp,
    /// `main-thread`, which takes no arguments; the next takes none either.
    MainThread,
    ThreadYield,
}

/// What is printed, and how.
#[derive(Clone, Copy, Debug, PartialEq, Eq)]
pub enum Printing {
    /// `print`: a newline, the escaped text of the argument, and a space.
    Print,
    /// `prin1`: the escaped text of the argument.
    Prin1,
    /// `princ`: the plain text of the argument.
    Princ,
    /// `terpri`: a newline. It takes no arguments.
    Terpri,
    /// `format t` with this control text and so many arguments.
    Format(StringId, u32),
}

/// A function of threads, mutexes, waitqueues, time or timers. The arguments that it must have come first, then those
/// of the keywords that are written, in this order.
#[derive(Clone, Copy, Debug, PartialEq, Eq)]
pub enum Service {
    /// Of a function.
    MakeThread {
        name: bool,
        arguments: bool,
    },
    /// Of a thread.
    JoinThread {
        default: bool,
        timeout: bool,
    },
    /// Of a thread and a function.
    InterruptThread,
    /// Of a thread.
    ThreadAlive,
    MakeMutex {
        name: bool,
    },
    MakeWaitqueue {
        name: bool,
    },
    /// Of a mutex; the next three are of a mutex as well.
    GrabMutex {
        waitp: bool,
        timeout: bool,
    },
    ReleaseMutex {
        if_not_owner: bool,
    },
    MutexOwner,
    HoldingMutex,
    /// Of a waitqueue and a mutex.
    ConditionWait {
        timeout: bool,
    },
    /// Of a waitqueue, and of how many waiters, where that is written.
    ConditionNotify {
        count: bool,
    },
    /// Of a waitqueue: all waiters.
    ConditionBroadcast,
    /// Of a time.
    Sleep,
    /// Of a function.
    MakeTimer {
        name: bool,
        thread: bool,
    },
    /// Of a timer and a time.
    ScheduleTimer {
        repeat_interval: bool,
        catch_up: bool,
    },
    /// Of a timer.
    UnscheduleTimer,
}
