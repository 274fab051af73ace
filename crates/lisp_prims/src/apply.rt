ghost use Rattle.std.specs.Prelude.{◌≡◌, map};
ghost use Rattle.lisp_base.specs.declared.value.Node.TheVariants.{Thread};
ghost use Rattle.form_points.specs.Primitives.{first_value, second_value, value_of_two};
ghost use Rattle.lisp_prims.specs.Applied.{applied, counted};

use crate::arguments::truth;
use crate::{comparisons as compare, numbers};
pub use lisp_base::condition::Class;
use lisp_base::id::ThreadId;
use lisp_base::value::{Node, Value};
pub use lisp_base::word::Word;
pub use lisp_program::function::Primitive;

/// What a function gives for these arguments, or the class of the condition that it signals. A function among them counts
/// as NIL, as does an argument that is missing, and others are not looked at.
pub fn apply_prim(code: Primitive, args: &[Word]) -> Result<Word, Class>
    ensures { result ≡ applied code args.now }
{
    match value_of(code, first(args), second(args)) {
        Ok(value) => Ok(Word::of_value(value)),
        Err(class) => Err(class),
    }
}

/// The first argument.
fn first(args: &[Word]) -> Value
    ensures { result ≡ first_value (map counted args.now) }
{
    match args.first() {
        Some(word) => word.value().unwrap_or(Value::nil()),
        None => Value::nil(),
    }
}

/// The second argument.
fn second(args: &[Word]) -> Value
    ensures { result ≡ second_value (map counted args.now) }
{
    match args.get(1) {
        Some(word) => word.value().unwrap_or(Value::nil()),
        None => Value::nil(),
    }
}

/// What a function gives for two arguments.
fn value_of(code: Primitive, a: Value, b: Value) -> Result<Value, Class>
    ensures { result ≡ value_of_two code a b }
{
    match code {
        Primitive::Add => numbers::add(a, b),
        Primitive::Subtract => numbers::subtract(a, b),
        Primitive::Multiply => numbers::multiply(a, b),
        Primitive::Max => numbers::max(a, b),
        Primitive::Min => numbers::min(a, b),
        Primitive::Increment => numbers::increment(a),
        Primitive::Decrement => numbers::decrement(a),
        Primitive::Abs => numbers::abs(a),
        Primitive::Floor => numbers::floor(a, b),
        Primitive::Truncate => numbers::truncate(a, b),
        Primitive::Mod => numbers::modulo(a, b),
        Primitive::Rem => numbers::remainder(a, b),
        Primitive::Equals => compare::equals(a, b),
        Primitive::Differs => compare::differs(a, b),
        Primitive::Less => compare::less(a, b),
        Primitive::Greater => compare::greater(a, b),
        Primitive::AtMost => compare::at_most(a, b),
        Primitive::AtLeast => compare::at_least(a, b),
        Primitive::Zerop => compare::zerop(a),
        Primitive::Eq | Primitive::Eql => compare::told(a, b),
        Primitive::Equal => Ok(truth(compare::is_same(a, b))),
        Primitive::Not | Primitive::Null => Ok(truth(compare::is_nil(a))),
        Primitive::Symbolp => Ok(truth(compare::is_symbol(a))),
        Primitive::Integerp => Ok(truth(compare::is_number(a))),
        Primitive::Stringp => Ok(truth(compare::is_string(a))),
        Primitive::MainThread => Ok(main_thread()),
        Primitive::ThreadYield => Ok(Value::nil()),
    }
}

/// The thread that evaluates the top-level forms, as a value.
fn main_thread() -> Value
    ensures { result ≡ Thread 0 }
{
    Value::of(Node::Thread(ThreadId::main())).unwrap()
}
