ghost use Rattle.std.specs.Prelude.{◌≡◌, pos, not, Ok, int_le, int_lt};
ghost use Rattle.lisp_base.specs.Equality.{same_integer, same_value};
ghost use Rattle.form_points.specs.Primitives;
ghost use Rattle.form_points.specs.Primitives.{compared, is_nil, is_number, is_string, is_symbol, of_integer};

use crate::arguments::{integer, truth};
use lisp_base::condition::Class;
use lisp_base::value::{Node, Value};
use lisp_base::word::Word;

/// `=` of two integers.
pub fn equals(a: Value, b: Value) -> Result<Value, Class>
    ensures { result ≡ compared same_integer a b }
{
    let (Some(y), Some(z)) = (integer(a), integer(b)) else {
        return Err(Class::TypeError);
    };
    Ok(truth(y == z))
}

/// `/=` of two integers.
pub fn differs(a: Value, b: Value) -> Result<Value, Class>
    ensures { result ≡ compared (λ y z. not (same_integer y z)) a b }
{
    let (Some(y), Some(z)) = (integer(a), integer(b)) else {
        return Err(Class::TypeError);
    };
    Ok(truth(y != z))
}

/// `<` of two integers.
pub fn less(a: Value, b: Value) -> Result<Value, Class>
    ensures { result ≡ compared int_lt a b }
{
    let (Some(y), Some(z)) = (integer(a), integer(b)) else {
        return Err(Class::TypeError);
    };
    Ok(truth(y < z))
}

/// `>` of two integers.
pub fn greater(a: Value, b: Value) -> Result<Value, Class>
    ensures { result ≡ compared (λ y z. int_lt z y) a b }
{
    let (Some(y), Some(z)) = (integer(a), integer(b)) else {
        return Err(Class::TypeError);
    };
    Ok(truth(y > z))
}

/// `<=` of two integers.
pub fn at_most(a: Value, b: Value) -> Result<Value, Class>
    ensures { result ≡ compared int_le a b }
{
    let (Some(y), Some(z)) = (integer(a), integer(b)) else {
        return Err(Class::TypeError);
    };
    Ok(truth(y <= z))
}

/// `>=` of two integers.
pub fn at_least(a: Value, b: Value) -> Result<Value, Class>
    ensures { result ≡ compared (λ y z. int_le z y) a b }
{
    let (Some(y), Some(z)) = (integer(a), integer(b)) else {
        return Err(Class::TypeError);
    };
    Ok(truth(y >= z))
}

/// `zerop` of an integer.
pub fn zerop(a: Value) -> Result<Value, Class>
    ensures { result ≡ of_integer (λ z. Ok (Primitives.truth (same_integer z (pos 0)))) a }
{
    let Some(z) = integer(a) else {
        return Err(Class::TypeError);
    };
    Ok(truth(z == 0))
}

/// `eq` and `eql` of two values. It errs with `TypeError` where both are strings or both are conditions, since these do not tell whether they are the same.
pub fn told(a: Value, b: Value) -> Result<Value, Class>
    ensures { result ≡ Primitives.told a b }
{
    match a.eq(&b) {
        Some(same) => Ok(truth(same)),
        None => Err(Class::TypeError),
    }
}

/// Whether two values are the same, which `equal` tells of all.
pub fn is_same(a: Value, b: Value) -> bool
    ensures { result ≡ same_value a b }
{
    Word::of_value(a).is(Word::of_value(b))
}

/// Whether a value is NIL.
pub fn is_nil(value: Value) -> bool
    ensures { result ≡ Primitives.is_nil value }
{
    value == Value::nil()
}

/// Whether a value is a symbol.
pub fn is_symbol(value: Value) -> bool
    ensures { result ≡ Primitives.is_symbol value }
{
    matches!(value.node(), Node::Symbol(_))
}

/// Whether a value is an integer.
pub fn is_number(value: Value) -> bool
    ensures { result ≡ Primitives.is_number value }
{
    matches!(value.node(), Node::Int(_))
}

/// Whether a value is a string.
pub fn is_string(value: Value) -> bool
    ensures { result ≡ Primitives.is_string value }
{
    matches!(value.node(), Node::Text(_))
}
