ghost use Rattle.std.specs.Prelude.{◌≡◌};
ghost use Rattle.form_shapes.specs.Operators;

use crate::operator::{Operator, operator_only};
use lisp_program::function::{Primitive, Printing, Service};

/// What a name means, among the functions of numbers.
fn number_named(name: &str) -> Option<Operator>
    ensures { result ≡ Operators.number_named name.now }
{
    match name {
        "+" => Some(Operator::Fold(Primitive::Add)),
        "*" => Some(Operator::Fold(Primitive::Multiply)),
        "-" => Some(Operator::Fold(Primitive::Subtract)),
        "MAX" => Some(Operator::Fold(Primitive::Max)),
        "MIN" => Some(Operator::Fold(Primitive::Min)),
        "1+" => Some(Operator::Apply(Primitive::Increment, 1)),
        "1-" => Some(Operator::Apply(Primitive::Decrement, 1)),
        "ABS" => Some(Operator::Apply(Primitive::Abs, 1)),
        "FLOOR" => Some(Operator::Apply(Primitive::Floor, 2)),
        "TRUNCATE" => Some(Operator::Apply(Primitive::Truncate, 2)),
        "MOD" => Some(Operator::Apply(Primitive::Mod, 2)),
        "REM" => Some(Operator::Apply(Primitive::Rem, 2)),
        _ => None,
    }
}

/// What a name means, among the tests of numbers.
fn order_named(name: &str) -> Option<Operator>
    ensures { result ≡ Operators.order_named name.now }
{
    match name {
        "=" => Some(Operator::Apply(Primitive::Equals, 2)),
        "/=" => Some(Operator::Apply(Primitive::Differs, 2)),
        "<" => Some(Operator::Apply(Primitive::Less, 2)),
        ">" => Some(Operator::Apply(Primitive::Greater, 2)),
        "<=" => Some(Operator::Apply(Primitive::AtMost, 2)),
        ">=" => Some(Operator::Apply(Primitive::AtLeast, 2)),
        "ZEROP" => Some(Operator::Apply(Primitive::Zerop, 1)),
        _ => None,
    }
}

/// What a name means, among the other tests.
fn test_named(name: &str) -> Option<Operator>
    ensures { result ≡ Operators.test_named name.now }
{
    match name {
        "EQ" => Some(Operator::Apply(Primitive::Eq, 2)),
        "EQL" => Some(Operator::Apply(Primitive::Eql, 2)),
        "EQUAL" => Some(Operator::Apply(Primitive::Equal, 2)),
        "NOT" => Some(Operator::Apply(Primitive::Not, 1)),
        "NULL" => Some(Operator::Apply(Primitive::Null, 1)),
        "SYMBOLP" => Some(Operator::Apply(Primitive::Symbolp, 1)),
        "INTEGERP" => Some(Operator::Apply(Primitive::Integerp, 1)),
        "STRINGP" => Some(Operator::Apply(Primitive::Stringp, 1)),
        _ => None,
    }
}

/// What a name means, among the functions of printing.
fn printing_named(name: &str) -> Option<Operator>
    ensures { result ≡ Operators.printing_named name.now }
{
    match name {
        "PRINT" => Some(Operator::Print(Printing::Print, 1)),
        "PRIN1" => Some(Operator::Print(Printing::Prin1, 1)),
        "PRINC" => Some(Operator::Print(Printing::Princ, 1)),
        "TERPRI" => Some(Operator::Print(Printing::Terpri, 0)),
        "FORMAT" => Some(Operator::Format),
        _ => None,
    }
}

/// What a name means, among the functions of threads.
fn thread_named(name: &str) -> Option<Operator>
    ensures { result ≡ Operators.thread_named name.now }
{
    match name {
        "MAIN-THREAD" => Some(Operator::Apply(Primitive::MainThread, 0)),
        "THREAD-YIELD" => Some(Operator::Apply(Primitive::ThreadYield, 0)),
        "MAKE-THREAD" => Some(Operator::Serve(Service::MakeThread {
            name: false,
            arguments: false,
        })),
        "JOIN-THREAD" => Some(Operator::Serve(Service::JoinThread {
            default: false,
            timeout: false,
        })),
        "INTERRUPT-THREAD" => Some(Operator::Serve(Service::InterruptThread)),
        "THREAD-ALIVE-P" => Some(Operator::Serve(Service::ThreadAlive)),
        _ => None,
    }
}

/// What a name means, among the functions of mutexes and waitqueues.
fn lock_named(name: &str) -> Option<Operator>
    ensures { result ≡ Operators.lock_named name.now }
{
    match name {
        "MAKE-MUTEX" => Some(Operator::Serve(Service::MakeMutex { name: false })),
        "MAKE-WAITQUEUE" => Some(Operator::Serve(Service::MakeWaitqueue { name: false })),
        "GRAB-MUTEX" => Some(Operator::Serve(Service::GrabMutex {
            waitp: false,
            timeout: false,
        })),
        "RELEASE-MUTEX" => Some(Operator::Serve(Service::ReleaseMutex {
            if_not_owner: false,
        })),
        "MUTEX-OWNER" => Some(Operator::Serve(Service::MutexOwner)),
        "HOLDING-MUTEX-P" => Some(Operator::Serve(Service::HoldingMutex)),
        "CONDITION-WAIT" => Some(Operator::Serve(Service::ConditionWait { timeout: false })),
        "CONDITION-NOTIFY" => Some(Operator::Serve(Service::ConditionNotify { count: false })),
        "CONDITION-BROADCAST" => Some(Operator::Serve(Service::ConditionBroadcast)),
        _ => None,
    }
}

/// What a name means, among the functions of time and timers.
fn time_named(name: &str) -> Option<Operator>
    ensures { result ≡ Operators.time_named name.now }
{
    match name {
        "SLEEP" => Some(Operator::Serve(Service::Sleep)),
        "MAKE-TIMER" => Some(Operator::Serve(Service::MakeTimer {
            name: false,
            thread: false,
        })),
        "SCHEDULE-TIMER" => Some(Operator::Serve(Service::ScheduleTimer {
            repeat_interval: false,
            catch_up: false,
        })),
        "UNSCHEDULE-TIMER" => Some(Operator::Serve(Service::UnscheduleTimer)),
        _ => None,
    }
}

/// The function with this name.
fn function_named(name: &str) -> Option<Operator>
    ensures { result ≡ Operators.function_named name.now }
{
    if let Some(operator) = number_named(name) {
        return Some(operator);
    }
    if let Some(operator) = order_named(name) {
        return Some(operator);
    }
    if let Some(operator) = test_named(name) {
        return Some(operator);
    }
    if let Some(operator) = printing_named(name) {
        return Some(operator);
    }
    if let Some(operator) = thread_named(name) {
        return Some(operator);
    }
    if let Some(operator) = lock_named(name) {
        return Some(operator);
    }
    time_named(name)
}

/// The operator or function with this name.
pub fn operator_named(name: &str) -> Option<Operator>
    ensures { result ≡ Operators.operator_named name.now }
{
    if let Some(operator) = operator_only(name) {
        return Some(operator);
    }
    function_named(name)
}
