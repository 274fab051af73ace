ghost use Rattle.std.specs.Prelude.{◌≡◌};
ghost use Rattle.form_shapes.specs.Operators;

use lisp_base::condition::Class;

/// The class of arithmetic, threads or times with this name.
fn lower_class(name: &str) -> Option<Class>
    ensures { result ≡ Operators.lower_class name.now }
{
    match name {
        "ARITHMETIC-ERROR" => Some(Class::ArithmeticError),
        "DIVISION-BY-ZERO" => Some(Class::DivisionByZero),
        "INTEGER-RANGE" => Some(Class::IntegerRange),
        "THREAD-ERROR" => Some(Class::ThreadError),
        "INTERRUPT-THREAD-ERROR" => Some(Class::InterruptThreadError),
        "JOIN-THREAD-ERROR" => Some(Class::JoinThreadError),
        "NOT-OWNER" => Some(Class::NotOwner),
        "RECURSIVE-LOCK" => Some(Class::RecursiveLock),
        "TIMEOUT" => Some(Class::Timeout),
        "DEADLINE-TIMEOUT" => Some(Class::DeadlineTimeout),
        _ => None,
    }
}

/// The class of conditions with this name.
pub fn class_named(name: &str) -> Option<Class>
    ensures { result ≡ Operators.class_named name.now }
{
    match name {
        "CONDITION" => Some(Class::Condition),
        "SERIOUS-CONDITION" => Some(Class::SeriousCondition),
        "ERROR" => Some(Class::Error),
        "STORAGE-CONDITION" => Some(Class::StorageCondition),
        "SIMPLE-ERROR" => Some(Class::SimpleError),
        "TYPE-ERROR" => Some(Class::TypeError),
        "PROGRAM-ERROR" => Some(Class::ProgramError),
        "CONTROL-ERROR" => Some(Class::ControlError),
        "CELL-ERROR" => Some(Class::CellError),
        "UNBOUND-VARIABLE" => Some(Class::UnboundVariable),
        "UNDEFINED-FUNCTION" => Some(Class::UndefinedFunction),
        _ => lower_class(name),
    }
}
