ghost use Rattle.std.specs.Prelude.{◌≡◌};
ghost use Rattle.lisp_base.specs.Refusals.{NumbersDiffer, are_same, refusal_name, refusal_number};
ghost use Rattle.lisp_base.specs.declared.refusal.Rejection.TheVariants;

use crate::id::Place;
use crate::memory;

/// Why a text is no program that is run. Each refusal has a name and a number, which are written where it is told.
#[derive(Clone, Copy, Debug, PartialEq, Eq)]
pub enum Refusal {
    /// The bytes are not UTF-8.
    NotUtf8,
    /// The text ends inside a list, a quote or a literal.
    EndInside,
    /// A closing parenthesis closes nothing.
    UnmatchedClose,
    /// A token means nothing.
    BadToken,
    /// A number is out of range.
    NumberTooLarge,
    /// Something is nested too deep.
    TooDeep,
    /// The text is longer than it may be.
    TooLong,
    /// The text has too many symbols.
    TooManySymbols,
    /// The text has too many string literals.
    TooManyTexts,
    /// A form is not run yet.
    NotBuilt,
    /// The head of a list is no operator and no function.
    UnknownOperator,
    /// A form does not have its shape, or stands where it may not.
    BadForm,
    /// A symbol is no variable.
    UnknownVariable,
    /// A function stands outside a function's seat, or another form in one.
    FunctionPlace,
    /// A region stands outside the region that it needs round it.
    RegionOutside,
    /// An exit has no block round it.
    NoSuchBlock,
    /// There are more arguments, variables or definitions than there may be.
    TooMany,
    /// A name is defined or bound twice.
    DefinedTwice,
    /// The code of the program would be longer than it may be.
    CodeTooLong,
    /// A function, or the top level, would hold more values at once than it may.
    HeightTooLarge,
}

impl Refusal {
    /// Its number. At one place the refusal with the least number comes first.
    pub fn number(self) -> u32
        ensures { result ≡ refusal_number self }
    {
        match self {
            Refusal::NotUtf8 => 1,
            Refusal::EndInside => 2,
            Refusal::UnmatchedClose => 3,
            Refusal::BadToken => 4,
            Refusal::NumberTooLarge => 5,
            Refusal::TooDeep => 6,
            Refusal::TooLong => 7,
            Refusal::TooManySymbols => 8,
            Refusal::TooManyTexts => 9,
            Refusal::NotBuilt => 10,
            Refusal::UnknownOperator => 11,
            Refusal::BadForm => 12,
            Refusal::UnknownVariable => 13,
            Refusal::FunctionPlace => 14,
            Refusal::RegionOutside => 15,
            Refusal::NoSuchBlock => 16,
            Refusal::TooMany => 17,
            Refusal::DefinedTwice => 18,
            Refusal::CodeTooLong => 21,
            Refusal::HeightTooLarge => 22,
        }
    }

    /// Its name.
    pub fn name(self) -> &'static str
        ensures { result.now ≡ refusal_name self }
    {
        match self {
            Refusal::NotUtf8 => "NotUtf8",
            Refusal::EndInside => "EndInside",
            Refusal::UnmatchedClose => "UnmatchedClose",
            Refusal::BadToken => "BadToken",
            Refusal::NumberTooLarge => "NumberTooLarge",
            Refusal::TooDeep => "TooDeep",
            Refusal::TooLong => "TooLong",
            Refusal::TooManySymbols => "TooManySymbols",
            Refusal::TooManyTexts => "TooManyTexts",
            Refusal::NotBuilt => "NotBuilt",
            Refusal::UnknownOperator => "UnknownOperator",
            Refusal::BadForm => "BadForm",
            Refusal::UnknownVariable => "UnknownVariable",
            Refusal::FunctionPlace => "FunctionPlace",
            Refusal::RegionOutside => "RegionOutside",
            Refusal::NoSuchBlock => "NoSuchBlock",
            Refusal::TooMany => "TooMany",
            Refusal::DefinedTwice => "DefinedTwice",
            Refusal::CodeTooLong => "CodeTooLong",
            Refusal::HeightTooLarge => "HeightTooLarge",
        }
    }

    /// Whether it is the other refusal.
    pub fn is(self, other: Refusal) -> bool
        ensures { result ≡ are_same self other }
    {
        self.number() == other.number()
    }
}

/// No two refusals have one number. There is nothing to run: the clause is the law.
pub fn numbers_differ()
    ensures { NumbersDiffer }
{}

/// What is refused, and where.
#[derive(Clone, Copy, Debug, PartialEq, Eq)]
pub struct Refused {
    pub refusal: Refusal,
    pub place: Place,
}

/// Why there is no program.
#[derive(Clone, Copy, Debug, PartialEq, Eq)]
pub enum Rejection {
    /// The text is no program: the refusal, and where it comes.
    Refused { refusal: Refusal, place: Place },
    /// Memory ran out.
    Memory,
}

impl Rejection {
    /// This refusal at this place.
    pub fn at(refusal: Refusal, place: Place) -> Self
        ensures { result ≡ TheVariants.Refused refusal place }
    {
        Rejection::Refused { refusal, place }
    }
}

impl From<memory::Memory> for Rejection {
    ghost from_gives = { λ _ e. e ≡ TheVariants.Memory };

    fn from(_error: memory::Memory) -> Self {
        Rejection::Memory
    }
}
