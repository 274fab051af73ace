ghost use Rattle.std.specs.Prelude.{◌≡◌, ◌↔◌, ◌<◌, ◌≤◌, ◌+◌, ◌*◌, ◌^◌, IsTrue};
ghost use Rattle.lisp_base.specs.Equality.{class_number as class_number_of};
ghost use Rattle.lisp_base.specs.Operands.{function_in, value_in};
ghost use Rattle.lisp_base.specs.Value.{is_in_range, is_integer};
ghost use Rattle.lisp_base.specs.declared.word.Operand.TheVariants;
ghost use Rattle.lisp_base.specs.inside.Words;
ghost use Rattle.lisp_base.specs.inside.Words.{decoded, names, times};

use crate::condition::{Class, Condition};
use crate::id::{
    FunctionName, Micros, MutexId, Place, QueueId, StringId, SymbolId, ThreadId, TimerId,
};
use crate::value::{Node, Value};
use std::marker::Model;

/// What a form gives: a value or, in a function's place, a function.
#[derive(Clone, Copy, Debug, PartialEq, Eq)]
pub enum Operand {
    Value(Value),
    Function(FunctionName),
}

/// What a form gives, in eight bytes. Contracts see the `Operand`.
#[derive(Clone, Copy, Debug, PartialEq, Eq)]
pub struct Word {
    bits: u64,
}

impl Model for Word {
    ghost use Rattle.std.specs.Prelude.{◌≡◌};
    ghost use Rattle.lisp_base.specs.declared.word.Operand.{Operand};

    ghost Value = { Operand };

    ghost use Rattle.lisp_base.specs.inside.Words.{coded, decoded};

    ghost view = { λ w. decoded w.bits };

    ghost invariant = { λ w. coded (decoded w.bits) ≡ w.bits };

    ghost inverse = { λ o. record { bits = coded o } };
}

/// Where the numbers of each kind begin. Each kind has as many as it has members, and integers begin at 0.
const TIMES: u64 = 1 << 63;

const SYMBOLS: u64 = TIMES + (1 << 62) + (1 << 52);

const TEXTS: u64 = SYMBOLS + (1 << 31);

const THREADS: u64 = TEXTS + (1 << 32);

const MUTEXES: u64 = THREADS + 32;

const QUEUES: u64 = MUTEXES + 256;

const TIMERS: u64 = QUEUES + 256;

const CONDITIONS: u64 = TIMERS + 4096 * 32;

const NAMES: u64 = CONDITIONS + 21 * CLASS;

const PLACES: u64 = NAMES + (1 << 31);

const ABORTING: u64 = PLACES + (1 << 32);

/// How many conditions of one class there are: one for each text, and one without.
const CLASS: u64 = (1 << 32) + 1;

/// How many integers there are below 0.
const BELOW: i64 = 1 << 62;

impl Word {
    /// The word that holds a value.
    pub fn of_value(value: Value) -> Word
        ensures { result ≡ TheVariants.Value value }
    {
        Word {
            bits: node_number(value.node()),
        }
    }

    /// The word that holds a function.
    pub fn of_function(name: FunctionName) -> Word
        ensures { result ≡ TheVariants.Function name }
    {
        Word {
            bits: name_number(name),
        }
    }

    /// The value that it holds: `None` exactly where it holds a function.
    pub fn value(self) -> Option<Value>
        ensures { result ≡ value_in self }
    {
        if self.bits >= NAMES {
            return None;
        }
        Value::of(node_at(self.bits))
    }

    /// The function that it holds: `None` exactly where it holds a value.
    pub fn function(self) -> Option<FunctionName>
        ensures { result ≡ function_in self }
    {
        if self.bits < NAMES {
            return None;
        }
        Some(name_at(self.bits))
    }

    /// Whether both hold the same, which is one comparison of their bits, as `==` is.
    pub fn is(self, other: Word) -> bool
        ensures { IsTrue result ↔ (self ≡ other) }
    {
        self == other
    }
}

/// The number of a value.
fn node_number(node: Node) -> u64
    requires { IsTrue (is_in_range node) }
    ensures same { result ≡ Words.node_number node }
    ensures back { decoded result ≡ TheVariants.Value node }
{
    match node {
        Node::Int(number) => integer_number(number),
        Node::Time(time) => TIMES + time.0,
        Node::Symbol(symbol) => SYMBOLS + u64::from(symbol.number()),
        Node::Text(text) => TEXTS + u64::from(text.0),
        Node::Thread(thread) => THREADS + u64::from(thread.number()),
        Node::Mutex(mutex) => MUTEXES + u64::from(mutex.number()),
        Node::Queue(queue) => QUEUES + u64::from(queue.number()),
        Node::Timer(timer) => TIMERS + timer_number(timer),
        Node::Cond(condition) => CONDITIONS + condition_number(condition),
    }
}

/// The value with a number.
fn node_at(number: u64) -> Node
    requires { number < names }
    ensures { result ≡ Words.node_at number }
{
    if number < TIMES {
        return Node::Int(integer_at(number));
    }
    if number < SYMBOLS {
        return Node::Time(Micros(number - TIMES));
    }
    if number < TEXTS {
        return Node::Symbol(SymbolId((number - SYMBOLS) as u32));
    }
    if number < THREADS {
        return Node::Text(StringId((number - TEXTS) as u32));
    }
    if number < MUTEXES {
        return Node::Thread(ThreadId::new((number - THREADS) as u32).unwrap());
    }
    if number < QUEUES {
        return Node::Mutex(MutexId::new((number - MUTEXES) as u32).unwrap());
    }
    if number < TIMERS {
        return Node::Queue(QueueId::new((number - QUEUES) as u32).unwrap());
    }
    if number < CONDITIONS {
        return Node::Timer(timer_at(number - TIMERS));
    }
    Node::Cond(condition_at(number - CONDITIONS))
}

/// The number of a function.
fn name_number(name: FunctionName) -> u64
    ensures same { result ≡ Words.name_number name }
    ensures back { decoded result ≡ TheVariants.Function name }
{
    match name {
        FunctionName::Named(symbol) => NAMES + u64::from(symbol.number()),
        FunctionName::At(place) => PLACES + u64::from(place.0),
        FunctionName::AbortThread => ABORTING,
    }
}

/// The function with a number.
fn name_at(number: u64) -> FunctionName
    requires { names ≤ number }
    ensures { result ≡ Words.name_at number }
{
    if number < PLACES {
        return FunctionName::Named(SymbolId((number - NAMES) as u32));
    }
    if number < ABORTING {
        return FunctionName::At(Place((number - PLACES) as u32));
    }
    FunctionName::AbortThread
}

/// The number of an integer. The least has 0.
fn integer_number(integer: i64) -> u64
    requires { IsTrue (is_integer integer) }
    ensures { result ≡ Words.integer_number integer }
{
    (integer + BELOW) as u64
}

/// The integer with a number.
fn integer_at(number: u64) -> i64
    requires { number < times }
    ensures { result ≡ Words.integer_at number }
{
    number as i64 - BELOW
}

/// The number of a timer: those of its number and of its thread.
fn timer_number(timer: TimerId) -> u64
    ensures same { result ≡ Words.timer_number timer }
    ensures limit { result < 4096 * 32 }
    ensures back { Words.timer_at result ≡ timer }
{
    u64::from(timer.number()) * 32 + u64::from(timer.thread().number())
}

/// The timer with a number.
fn timer_at(number: u64) -> TimerId
    requires { number < 4096 * 32 }
    ensures { result ≡ Words.timer_at number }
{
    let thread = ThreadId::new((number % 32) as u32).unwrap();
    TimerId::new((number / 32) as u32, thread).unwrap()
}

/// The number of a condition: those of its class and of its text.
fn condition_number(condition: Condition) -> u64
    ensures same { result ≡ Words.condition_number condition }
    ensures limit { result < 21 * (2 ^ 32 + 1) }
    ensures back { Words.condition_at result ≡ condition }
{
    class_number(condition.class) * CLASS + text_number(condition.text)
}

/// The number of the text of a condition: 0 where there is none.
fn text_number(text: Option<StringId>) -> u64
    ensures same { result ≡ Words.text_number text }
    ensures limit { result < 2 ^ 32 + 1 }
    ensures back { Words.text_at result ≡ text }
{
    match text {
        Some(text) => u64::from(text.0) + 1,
        None => 0,
    }
}

/// The condition with a number.
fn condition_at(number: u64) -> Condition
    requires { number < 21 * (2 ^ 32 + 1) }
    ensures { result ≡ Words.condition_at number }
{
    Condition {
        class: class_at(number / CLASS),
        text: text_at(number % CLASS),
    }
}

/// The text with a number.
fn text_at(number: u64) -> Option<StringId>
    requires { number < 2 ^ 32 + 1 }
    ensures { result ≡ Words.text_at number }
{
    if number == 0 {
        return None;
    }
    Some(StringId((number - 1) as u32))
}

/// The number of a class, from 0.
fn class_number(class: Class) -> u64
    ensures same { result ≡ class_number_of class }
    ensures limit { result < 21 }
    ensures back { Words.class_at result ≡ class }
{
    match class {
        Class::Condition => 0,
        Class::SeriousCondition => 1,
        Class::Error => 2,
        Class::StorageCondition => 3,
        Class::SimpleError => 4,
        Class::TypeError => 5,
        Class::ProgramError => 6,
        Class::ControlError => 7,
        Class::CellError => 8,
        Class::UnboundVariable => 9,
        Class::UndefinedFunction => 10,
        Class::ArithmeticError => 11,
        Class::DivisionByZero => 12,
        Class::IntegerRange => 13,
        Class::ThreadError => 14,
        Class::InterruptThreadError => 15,
        Class::JoinThreadError => 16,
        Class::NotOwner => 17,
        Class::RecursiveLock => 18,
        Class::Timeout => 19,
        Class::DeadlineTimeout => 20,
    }
}

/// The classes, in the order of their numbers.
const CLASSES: [Class; 21] = [
    Class::Condition,
    Class::SeriousCondition,
    Class::Error,
    Class::StorageCondition,
    Class::SimpleError,
    Class::TypeError,
    Class::ProgramError,
    Class::ControlError,
    Class::CellError,
    Class::UnboundVariable,
    Class::UndefinedFunction,
    Class::ArithmeticError,
    Class::DivisionByZero,
    Class::IntegerRange,
    Class::ThreadError,
    Class::InterruptThreadError,
    Class::JoinThreadError,
    Class::NotOwner,
    Class::RecursiveLock,
    Class::Timeout,
    Class::DeadlineTimeout,
];

/// The class with a number.
fn class_at(number: u64) -> Class
    requires { number < 21 }
    ensures { result ≡ Words.class_at number }
{
    CLASSES[number as usize]
}
