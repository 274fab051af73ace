ghost use Rattle.std.specs.Prelude.{◌≡◌};
ghost use Rattle.form_shapes.specs.Operators;

use lisp_base::id::SymbolId;
use lisp_program::function::{Primitive, Printing, Service};

/// What a name means at the head of a list.
#[derive(Clone, Copy)]
pub enum Operator {
    Quote,
    Function,
    Lambda,
    Progn,
    If,
    Let,
    LetStar,
    /// `setq` or `setf`.
    Setq,
    CompareAndSwap,
    Declare,
    Block,
    ReturnFrom,
    Return,
    Catch,
    Throw,
    UnwindProtect,
    HandlerCase,
    IgnoreErrors,
    Error,
    WithoutInterrupts,
    AllowWithInterrupts,
    WithInterrupts,
    WithLocalInterrupts,
    WithDeadline,
    WithTimeout,
    WithMutex,
    WithRecursiveLock,
    AbortThread,
    ReturnFromThread,
    TerminateThread,
    When,
    Unless,
    Cond,
    And,
    Or,
    Prog1,
    Incf,
    Decf,
    Loop,
    Dotimes,
    Defvar,
    Defparameter,
    Defun,
    /// An operator of the top level that is NIL there, whatever it holds: `in-package`, `declaim` or `use-package`.
    Ignored,
    /// A function of two arguments that is folded over any number of them.
    Fold(Primitive),
    /// A function of so many arguments.
    Apply(Primitive, u32),
    /// A function of printing, of so many arguments.
    Print(Printing, u32),
    Format,
    /// A function of threads, mutexes, waitqueues, time or timers, with none of its keywords.
    Serve(Service),
    /// A function of the program.
    Own(SymbolId),
}

/// What a name means, among the operators of values, variables and sequences.
fn basic_named(name: &str) -> Option<Operator>
    ensures { result ≡ Operators.basic_named name.now }
{
    match name {
        "QUOTE" => Some(Operator::Quote),
        "FUNCTION" => Some(Operator::Function),
        "LAMBDA" => Some(Operator::Lambda),
        "PROGN" => Some(Operator::Progn),
        "IF" => Some(Operator::If),
        "LET" => Some(Operator::Let),
        "LET*" => Some(Operator::LetStar),
        "SETQ" => Some(Operator::Setq),
        "SETF" => Some(Operator::Setq),
        "COMPARE-AND-SWAP" => Some(Operator::CompareAndSwap),
        "DECLARE" => Some(Operator::Declare),
        _ => None,
    }
}

/// What a name means, among the operators of blocks, catches, cleanups and handlers.
fn control_named(name: &str) -> Option<Operator>
    ensures { result ≡ Operators.control_named name.now }
{
    match name {
        "BLOCK" => Some(Operator::Block),
        "RETURN-FROM" => Some(Operator::ReturnFrom),
        "RETURN" => Some(Operator::Return),
        "CATCH" => Some(Operator::Catch),
        "THROW" => Some(Operator::Throw),
        "UNWIND-PROTECT" => Some(Operator::UnwindProtect),
        "HANDLER-CASE" => Some(Operator::HandlerCase),
        "IGNORE-ERRORS" => Some(Operator::IgnoreErrors),
        "ERROR" => Some(Operator::Error),
        _ => None,
    }
}

/// What a name means, among the operators of regions, times, mutexes and ends of threads.
fn region_named(name: &str) -> Option<Operator>
    ensures { result ≡ Operators.region_named name.now }
{
    match name {
        "WITHOUT-INTERRUPTS" => Some(Operator::WithoutInterrupts),
        "ALLOW-WITH-INTERRUPTS" => Some(Operator::AllowWithInterrupts),
        "WITH-INTERRUPTS" => Some(Operator::WithInterrupts),
        "WITH-LOCAL-INTERRUPTS" => Some(Operator::WithLocalInterrupts),
        "WITH-DEADLINE" => Some(Operator::WithDeadline),
        "WITH-TIMEOUT" => Some(Operator::WithTimeout),
        "WITH-MUTEX" => Some(Operator::WithMutex),
        "WITH-RECURSIVE-LOCK" => Some(Operator::WithRecursiveLock),
        "ABORT-THREAD" => Some(Operator::AbortThread),
        "RETURN-FROM-THREAD" => Some(Operator::ReturnFromThread),
        "TERMINATE-THREAD" => Some(Operator::TerminateThread),
        _ => None,
    }
}

/// What a name means, among the operators of choices and loops.
fn choice_named(name: &str) -> Option<Operator>
    ensures { result ≡ Operators.choice_named name.now }
{
    match name {
        "WHEN" => Some(Operator::When),
        "UNLESS" => Some(Operator::Unless),
        "COND" => Some(Operator::Cond),
        "AND" => Some(Operator::And),
        "OR" => Some(Operator::Or),
        "PROG1" => Some(Operator::Prog1),
        "INCF" => Some(Operator::Incf),
        "DECF" => Some(Operator::Decf),
        "LOOP" => Some(Operator::Loop),
        "DOTIMES" => Some(Operator::Dotimes),
        _ => None,
    }
}

/// What a name means, among the operators of the top level.
fn top_named(name: &str) -> Option<Operator>
    ensures { result ≡ Operators.top_named name.now }
{
    match name {
        "DEFVAR" => Some(Operator::Defvar),
        "DEFPARAMETER" => Some(Operator::Defparameter),
        "DEFUN" => Some(Operator::Defun),
        "IN-PACKAGE" => Some(Operator::Ignored),
        "DECLAIM" => Some(Operator::Ignored),
        "USE-PACKAGE" => Some(Operator::Ignored),
        _ => None,
    }
}

/// The operator with this name.
pub fn operator_only(name: &str) -> Option<Operator>
    ensures { result ≡ Operators.operator_only name.now }
{
    if let Some(operator) = basic_named(name) {
        return Some(operator);
    }
    if let Some(operator) = control_named(name) {
        return Some(operator);
    }
    if let Some(operator) = region_named(name) {
        return Some(operator);
    }
    if let Some(operator) = choice_named(name) {
        return Some(operator);
    }
    top_named(name)
}

/// Whether this names a symbol that stands for itself: NIL, T or a keyword.
pub fn is_constant(name: &str) -> bool
    ensures { result ≡ Operators.is_constant name.now }
{
    name == "NIL" || name == "T" || name.starts_with(':')
}

/// Whether this is the name of the present thread.
pub fn is_current_thread(name: &str) -> bool
    ensures { result ≡ Operators.is_current_thread name.now }
{
    name == "*CURRENT-THREAD*"
}
