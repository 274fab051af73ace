ghost use Rattle.std.specs.Prelude.{◌≡◌, ◌↔◌, IsTrue};
ghost use Rattle.lisp_base.specs.Classes.{above, Covers, IsPartialOrder};

use crate::id::StringId;

/// The classes of conditions. They are a tree: each but the first is directly below one other.
#[derive(Clone, Copy, Debug, PartialEq, Eq)]
pub enum Class {
    Condition,
    SeriousCondition,
    Error,
    StorageCondition,
    SimpleError,
    TypeError,
    ProgramError,
    ControlError,
    CellError,
    UnboundVariable,
    UndefinedFunction,
    ArithmeticError,
    DivisionByZero,
    IntegerRange,
    ThreadError,
    InterruptThreadError,
    JoinThreadError,
    NotOwner,
    RecursiveLock,
    Timeout,
    DeadlineTimeout,
}

impl Class {
    /// The class directly above it.
    fn above(self) -> Option<Class>
        ensures { result ≡ above self }
    {
        match self {
            Class::Condition => None,
            Class::SeriousCondition => Some(Class::Condition),
            Class::Error | Class::StorageCondition => Some(Class::SeriousCondition),
            Class::SimpleError
            | Class::TypeError
            | Class::ProgramError
            | Class::ControlError
            | Class::CellError
            | Class::ArithmeticError
            | Class::ThreadError
            | Class::Timeout => Some(Class::Error),
            Class::UnboundVariable | Class::UndefinedFunction => Some(Class::CellError),
            Class::DivisionByZero | Class::IntegerRange => Some(Class::ArithmeticError),
            Class::InterruptThreadError
            | Class::JoinThreadError
            | Class::NotOwner
            | Class::RecursiveLock => Some(Class::ThreadError),
            Class::DeadlineTimeout => Some(Class::Timeout),
        }
    }

    /// Whether it is the other class or is below it.
    fn is_within(self, other: Class) -> bool
        ensures { IsTrue result ↔ Covers other self }
    {
        if self == other {
            return true;
        }
        match self.above() {
            Some(above) => above.is_within(other),
            None => false,
        }
    }

    /// Whether the other class is this one or below it.
    pub fn covers(self, other: Class) -> bool
        ensures { IsTrue result ↔ Covers self other }
    {
        other.is_within(self)
    }
}

/// A class covers itself, no two classes cover each other, and a class covers what is covered by a class that it covers. There is nothing to run: the clause is the law.
pub fn covers_is_a_partial_order()
    ensures { IsPartialOrder Covers }
{}

/// A condition, with its text where it was signalled with a text.
#[derive(Clone, Copy, Debug, PartialEq, Eq)]
pub struct Condition {
    pub class: Class,
    pub text: Option<StringId>,
}
