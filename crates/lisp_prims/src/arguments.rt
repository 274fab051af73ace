ghost use Rattle.std.specs.Prelude.{◌≡◌, ℤ, IsTrue, IfSome, IfNone, Err, List, Result};
ghost use Rattle.lisp_base.specs.Value.{is_integer};
ghost use Rattle.lisp_base.specs.declared.condition.Class.{Class};
ghost use Rattle.lisp_base.specs.declared.condition.Class.TheVariants.{TypeError};
ghost use Rattle.lisp_base.specs.declared.value.Node.{Node};
ghost use Rattle.lisp_base.specs.declared.value.Node.TheVariants.{Int};
ghost use Rattle.form_points.specs.Primitives;
ghost use Rattle.form_points.specs.Primitives.{of_integer, of_integers};

use lisp_base::condition::Class;
use lisp_base::id::SymbolId;
use lisp_base::value::{Node, Value};

/// The integer that a value is: `None` exactly where it is none.
pub fn integer(value: Value) -> Option<i64>
    ensures some { IfSome result (λ z. value ≡ Int z) }
    ensures range { IfSome result (λ z. IsTrue (is_integer z)) }
    ensures none { IfNone result ((f : ℤ → Result Node Class) → of_integer f value ≡ Err TypeError) }
{
    match value.node() {
        Node::Int(number) => Some(number),
        _ => None,
    }
}

/// An integer as a value. It errs with `IntegerRange` where it is out of range.
pub fn ranged(number: i64) -> Result<Value, Class>
    ensures { result ≡ Primitives.ranged number }
{
    Value::of(Node::Int(number)).ok_or(Class::IntegerRange)
}

/// T where it holds, else NIL.
pub fn truth(holds: bool) -> Value
    ensures { result ≡ Primitives.truth holds }
{
    if holds {
        Value::symbol(SymbolId(1))
    } else {
        Value::nil()
    }
}
