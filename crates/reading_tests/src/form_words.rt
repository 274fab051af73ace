//! What the tests write for a kind of core form: a word, and the names, values and numbers in it.
use lisp_base::condition::{Class, Condition};
use lisp_base::id::{FunctionName, Place, SymbolId};
use lisp_base::value::{Node, Value};
use lisp_program::form::{CoreKind, FormNode};
use lisp_program::function::{Primitive, Printing, Service};

/// The word for a form.
pub fn word(node: &FormNode) -> &'static str {
    match node.kind {
        CoreKind::Constant(_) => "constant",
        CoreKind::CurrentThread => "current",
        CoreKind::Function(FunctionName::AbortThread) => "abort-function",
        CoreKind::Function(_) => "function",
        CoreKind::Local(_) => "local",
        CoreKind::Special(_) => "special",
        CoreKind::SetLocal(_) | CoreKind::SetSpecial(_) => "set",
        CoreKind::Defvar(_) => "defvar",
        CoreKind::Defparameter(_) => "defparameter",
        CoreKind::Defun(_) => "defun",
        CoreKind::CompareAndSwap(_) => "swap",
        CoreKind::Progn => "progn",
        CoreKind::If => "if",
        CoreKind::While => "while",
        CoreKind::Let => "let",
        CoreKind::BindLocal(_, _) | CoreKind::BindSpecial(_, _) => "bind",
        CoreKind::Call(_) => "call",
        CoreKind::Apply(primitive) => primitive_word(primitive),
        CoreKind::Print(printing) => printing_word(printing),
        CoreKind::Serve(service) => service_word(service),
        _ => control_word(node),
    }
}

/// The word for a form that is left or that changes what interrupts and handles.
fn control_word(node: &FormNode) -> &'static str {
    match node.kind {
        CoreKind::Block(_) => "block",
        CoreKind::ReturnFrom(_) => "return",
        CoreKind::Catch => "catch",
        CoreKind::Throw => "throw",
        CoreKind::UnwindProtect => "protect",
        CoreKind::WithoutInterrupts(_) => "without",
        CoreKind::AllowWithInterrupts(_) => "allow",
        CoreKind::WithInterrupts => "with",
        CoreKind::HandlerCase => "handle",
        CoreKind::Clause(_) | CoreKind::ClauseWith(_, _) => "clause",
        CoreKind::Signal(_) => "signal",
        CoreKind::WithDeadline { .. } => "deadline",
        CoreKind::AbortThread => "abort",
        CoreKind::ReturnFromThread => "end",
        _ => "no word",
    }
}

/// The name of a function with local points.
fn primitive_word(primitive: Primitive) -> &'static str {
    match primitive {
        Primitive::Add => "+",
        Primitive::Subtract => "-",
        Primitive::Multiply => "*",
        Primitive::Max => "max",
        Primitive::Min => "min",
        Primitive::Increment => "1+",
        Primitive::Decrement => "1-",
        Primitive::Abs => "abs",
        Primitive::Floor => "floor",
        Primitive::Truncate => "truncate",
        Primitive::Mod => "mod",
        Primitive::Rem => "rem",
        Primitive::MainThread => "main-thread",
        Primitive::ThreadYield => "thread-yield",
        _ => test_word(primitive),
    }
}

/// The name of a test.
fn test_word(primitive: Primitive) -> &'static str {
    match primitive {
        Primitive::Equals => "=",
        Primitive::Differs => "/=",
        Primitive::Less => "<",
        Primitive::Greater => ">",
        Primitive::AtMost => "<=",
        Primitive::AtLeast => ">=",
        Primitive::Zerop => "zerop",
        Primitive::Eq => "eq",
        Primitive::Eql => "eql",
        Primitive::Equal => "equal",
        Primitive::Not => "not",
        Primitive::Null => "null",
        Primitive::Symbolp => "symbolp",
        Primitive::Integerp => "integerp",
        Primitive::Stringp => "stringp",
        _ => "no word",
    }
}

/// The name of a function that prints.
fn printing_word(printing: Printing) -> &'static str {
    match printing {
        Printing::Print => "print",
        Printing::Prin1 => "prin1",
        Printing::Princ => "princ",
        Printing::Terpri => "terpri",
        Printing::Format(_, _) => "format",
    }
}

/// The name of a function of threads, mutexes, waitqueues, time or timers.
fn service_word(service: Service) -> &'static str {
    match service {
        Service::MakeThread { .. } => "make-thread",
        Service::JoinThread { .. } => "join-thread",
        Service::InterruptThread => "interrupt-thread",
        Service::ThreadAlive => "thread-alive-p",
        Service::MakeMutex { .. } => "make-mutex",
        Service::MakeWaitqueue { .. } => "make-waitqueue",
        Service::GrabMutex { .. } => "grab-mutex",
        Service::ReleaseMutex { .. } => "release-mutex",
        Service::MutexOwner => "mutex-owner",
        Service::HoldingMutex => "holding-mutex-p",
        Service::ConditionWait { .. } => "condition-wait",
        Service::ConditionNotify { .. } => "condition-notify",
        Service::ConditionBroadcast => "condition-broadcast",
        Service::Sleep => "sleep",
        Service::MakeTimer { .. } => "make-timer",
        Service::ScheduleTimer { .. } => "schedule-timer",
        Service::UnscheduleTimer => "unschedule-timer",
    }
}

/// A word with a blank before it, where it is written.
fn written(word: &'static str, is_written: bool) -> &'static str {
    if is_written { word } else { "" }
}

/// The keywords that are written in a form, each with a blank before it. The number of waiters to be notified is written as `count`.
pub fn keys(node: &FormNode) -> [&'static str; 2] {
    match node.kind {
        CoreKind::Serve(service) => service_keys(service),
        CoreKind::WithDeadline { seconds, replaces } => [
            written(" :seconds", seconds),
            written(" :override", replaces),
        ],
        _ => ["", ""],
    }
}

/// The keywords that are written in a call of a function, each with a blank before it.
fn service_keys(service: Service) -> [&'static str; 2] {
    match service {
        Service::MakeThread { name, arguments } => [
            written(" :name", name),
            written(" :arguments", arguments),
        ],
        Service::JoinThread { default, timeout } => [
            written(" :default", default),
            written(" :timeout", timeout),
        ],
        Service::MakeMutex { name } | Service::MakeWaitqueue { name } => [
            written(" :name", name),
            "",
        ],
        Service::GrabMutex { waitp, timeout } => [
            written(" :waitp", waitp),
            written(" :timeout", timeout),
        ],
        Service::ReleaseMutex { if_not_owner } => [written(" :if-not-owner", if_not_owner), ""],
        Service::ConditionWait { timeout } => [written(" :timeout", timeout), ""],
        Service::ConditionNotify { count } => [written(" count", count), ""],
        Service::MakeTimer { name, thread } => [
            written(" :name", name),
            written(" :thread", thread),
        ],
        Service::ScheduleTimer {
            repeat_interval,
            catch_up,
        } => [
            written(" :repeat-interval", repeat_interval),
            written(" :catch-up", catch_up),
        ],
        _ => ["", ""],
    }
}

/// The symbol in the kind of a form.
pub fn symbol(node: &FormNode) -> Option<SymbolId> {
    match node.kind {
        CoreKind::Function(FunctionName::Named(symbol))
        | CoreKind::Special(symbol)
        | CoreKind::SetSpecial(symbol)
        | CoreKind::Defvar(symbol)
        | CoreKind::Defparameter(symbol)
        | CoreKind::Defun(symbol)
        | CoreKind::CompareAndSwap(symbol)
        | CoreKind::BindSpecial(symbol, _)
        | CoreKind::Call(symbol) => Some(symbol),
        _ => None,
    }
}

/// The value in the kind of a form: a control of `format`, or a condition.
pub fn value(node: &FormNode) -> Option<Value> {
    match node.kind {
        CoreKind::Print(Printing::Format(text, _)) => Value::of(Node::Text(text)),
        CoreKind::Signal(condition) => Value::of(Node::Cond(condition)),
        CoreKind::Clause(class) | CoreKind::ClauseWith(class, _) => class_value(class),
        _ => None,
    }
}

/// A condition of a class.
fn class_value(class: Class) -> Option<Value> {
    Value::of(Node::Cond(Condition { class, text: None }))
}

/// The numbers in the kind of a form.
pub fn numbers(node: &FormNode) -> [Option<u32>; 2] {
    match node.kind {
        CoreKind::BindLocal(number, above) => [Some(number), Some(above)],
        CoreKind::Function(FunctionName::At(Place(number)))
        | CoreKind::BindSpecial(_, number)
        | CoreKind::Local(number)
        | CoreKind::SetLocal(number)
        | CoreKind::Block(number)
        | CoreKind::ReturnFrom(number)
        | CoreKind::WithoutInterrupts(number)
        | CoreKind::AllowWithInterrupts(number)
        | CoreKind::ClauseWith(_, number)
        | CoreKind::Print(Printing::Format(_, number)) => [Some(number), None],
        _ => [None, None],
    }
}
