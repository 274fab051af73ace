ghost use Rattle.std.specs.Prelude.{◌≡◌, ◌↔◌, ℕ, ◌^◌, ◌<◌, IsSome, IfSome};
ghost use Rattle.lisp_base.specs.Timers.{TimerNumbers};

use std::marker::Model;

/// A byte offset into the text of the program, from 0.
#[derive(Clone, Copy, Debug, PartialEq, Eq)]
pub struct Place(pub u32);

impl Model for Place {
    ghost Value = { ℕ };

    ghost view = { λ p. p.0 };

    ghost inverse = { λ n. record { 0 = n } };
}

/// The number of a symbol, below 2^31. NIL is 0.
#[derive(Clone, Copy, Debug, PartialEq, Eq)]
pub struct SymbolId(pub u32);

impl Model for SymbolId {
    ghost Value = { ℕ };

    ghost view = { λ s. s.0 };

    ghost invariant = { λ s. s.0 < 2 ^ 31 };

    ghost inverse = { λ n. record { 0 = n } };
}

impl SymbolId {
    /// The symbol NIL.
    pub fn nil() -> Self
        ensures { result ≡ 0 }
    {
        SymbolId(0)
    }

    /// Its number, which is below 2^31.
    pub fn number(self) -> u32
        ensures value { result ≡ self }
        ensures limit { result < 2 ^ 31 }
    {
        self.0
    }
}

/// The number of a string literal.
#[derive(Clone, Copy, Debug, PartialEq, Eq)]
pub struct StringId(pub u32);

impl Model for StringId {
    ghost Value = { ℕ };

    ghost view = { λ s. s.0 };

    ghost inverse = { λ n. record { 0 = n } };
}

/// The number of a thread, below 32. Main is 0.
#[derive(Clone, Copy, Debug, PartialEq, Eq)]
pub struct ThreadId {
    number: u32,
}

impl Model for ThreadId {
    ghost Value = { ℕ };

    ghost view = { λ t. t.number };

    ghost invariant = { λ t. t.number < 32 };

    ghost inverse = { λ n. record { number = n } };
}

impl ThreadId {
    /// The thread that evaluates the top-level forms.
    pub fn main() -> Self
        ensures { result ≡ 0 }
    {
        ThreadId { number: 0 }
    }

    /// The thread with this number: `None` exactly where the number is not below 32.
    pub fn new(number: u32) -> Option<Self>
        ensures given { IsSome result ↔ (number < 32) }
        ensures same { IfSome result (λ t. t ≡ number) }
    {
        if number < 32 {
            Some(ThreadId { number })
        } else {
            None
        }
    }

    /// Its number, which is below 32.
    pub fn number(self) -> u32
        ensures value { result ≡ self }
        ensures limit { result < 32 }
    {
        self.number
    }
}

/// Who does an operation: a thread, or the runner that gives the threads their turns.
#[derive(Clone, Copy, Debug, PartialEq, Eq)]
pub enum Actor {
    Thread(ThreadId),
    Runner,
}

/// The number of a mutex, below 256.
#[derive(Clone, Copy, Debug, PartialEq, Eq)]
pub struct MutexId {
    number: u32,
}

impl Model for MutexId {
    ghost Value = { ℕ };

    ghost view = { λ m. m.number };

    ghost invariant = { λ m. m.number < 256 };

    ghost inverse = { λ n. record { number = n } };
}

impl MutexId {
    /// The mutex with this number: `None` exactly where the number is not below 256.
    pub fn new(number: u32) -> Option<Self>
        ensures given { IsSome result ↔ (number < 256) }
        ensures same { IfSome result (λ m. m ≡ number) }
    {
        if number < 256 {
            Some(MutexId { number })
        } else {
            None
        }
    }

    /// Its number, which is below 256.
    pub fn number(self) -> u32
        ensures value { result ≡ self }
        ensures limit { result < 256 }
    {
        self.number
    }
}

/// The number of a waitqueue, below 256.
#[derive(Clone, Copy, Debug, PartialEq, Eq)]
pub struct QueueId {
    number: u32,
}

impl Model for QueueId {
    ghost Value = { ℕ };

    ghost view = { λ q. q.number };

    ghost invariant = { λ q. q.number < 256 };

    ghost inverse = { λ n. record { number = n } };
}

impl QueueId {
    /// The queue with this number: `None` exactly where the number is not below 256.
    pub fn new(number: u32) -> Option<Self>
        ensures given { IsSome result ↔ (number < 256) }
        ensures same { IfSome result (λ q. q ≡ number) }
    {
        if number < 256 {
            Some(QueueId { number })
        } else {
            None
        }
    }

    /// Its number, which is below 256.
    pub fn number(self) -> u32
        ensures value { result ≡ self }
        ensures limit { result < 256 }
    {
        self.number
    }
}

/// A timer: its number, below 4,096, and the thread that its function interrupts.
#[derive(Clone, Copy, Debug, PartialEq, Eq)]
pub struct TimerId {
    number: u32,
    thread: ThreadId,
}

impl Model for TimerId {
    ghost Value = { TimerNumbers };

    ghost view = { λ t. record { number = t.number; thread = t.thread } };

    ghost invariant = { λ t. t.number < 4096 };

    ghost inverse = { λ n. record { number = n.number; thread = n.thread } };
}

impl TimerId {
    /// The timer with this number, for this thread: `None` exactly where the number is not below 4,096.
    pub fn new(number: u32, thread: ThreadId) -> Option<Self>
        ensures given { IsSome result ↔ (number < 4096) }
        ensures same { IfSome result (λ t. t ≡ record { number = number; thread = thread }) }
    {
        if number < 4096 {
            Some(TimerId { number, thread })
        } else {
            None
        }
    }

    /// Its number, which is below 4,096.
    pub fn number(self) -> u32
        ensures value { result ≡ self.number }
        ensures limit { result < 4096 }
    {
        self.number
    }

    /// The thread that its function interrupts.
    pub fn thread(self) -> ThreadId
        ensures { result ≡ self.thread }
    {
        self.thread
    }
}

/// From whom an interruption comes: a thread, or a timer by its number.
#[derive(Clone, Copy, Debug, PartialEq, Eq)]
pub enum From {
    Thread(ThreadId),
    Timer(u32),
}

/// What names a function: the symbol of its definition, or the place of its `lambda`. The last is the function that ends the thread that it interrupts.
#[derive(Clone, Copy, Debug, PartialEq, Eq)]
pub enum FunctionName {
    Named(SymbolId),
    At(Place),
    AbortThread,
}

/// A time in microseconds, of a clock or from one reading to another.
#[derive(Clone, Copy, Debug, PartialEq, Eq)]
pub struct Micros(pub u64);

impl Model for Micros {
    ghost Value = { ℕ };

    ghost view = { λ m. m.0 };

    ghost inverse = { λ n. record { 0 = n } };
}
