ghost use Rattle.std.specs.Prelude.{◌≡◌, ◌≢◌, ◌≤◌, ◌^◌, IsTrue, pos, ◌+ℤ◌, ◌-ℤ◌, ◌*ℤ◌, nat_abs, int_div, int_rem};
ghost use Rattle.lisp_base.specs.Value.{is_integer};
ghost use Rattle.form_points.specs.Primitives;
ghost use Rattle.form_points.specs.Primitives.{divided, greater_z, lesser_z, number, of_integer};

use crate::arguments::{integer, ranged};
use lisp_base::condition::Class;
use lisp_base::value::Value;

/// `+` of two integers.
pub fn add(a: Value, b: Value) -> Result<Value, Class>
    ensures { result ≡ number (λ y z. y +ℤ z) a b }
{
    let (Some(y), Some(z)) = (integer(a), integer(b)) else {
        return Err(Class::TypeError);
    };
    ranged(y + z)
}

/// `-` of two integers.
pub fn subtract(a: Value, b: Value) -> Result<Value, Class>
    ensures { result ≡ number (λ y z. y -ℤ z) a b }
{
    let (Some(y), Some(z)) = (integer(a), integer(b)) else {
        return Err(Class::TypeError);
    };
    ranged(y - z)
}

/// `*` of two integers.
pub fn multiply(a: Value, b: Value) -> Result<Value, Class>
    ensures { result ≡ number (λ y z. y *ℤ z) a b }
{
    let (Some(y), Some(z)) = (integer(a), integer(b)) else {
        return Err(Class::TypeError);
    };
    match y.checked_mul(z) {
        Some(product) => ranged(product),
        None => Err(Class::IntegerRange),
    }
}

/// `max` of two integers.
pub fn max(a: Value, b: Value) -> Result<Value, Class>
    ensures { result ≡ number greater_z a b }
{
    let (Some(y), Some(z)) = (integer(a), integer(b)) else {
        return Err(Class::TypeError);
    };
    ranged(if y < z { z } else { y })
}

/// `min` of two integers.
pub fn min(a: Value, b: Value) -> Result<Value, Class>
    ensures { result ≡ number lesser_z a b }
{
    let (Some(y), Some(z)) = (integer(a), integer(b)) else {
        return Err(Class::TypeError);
    };
    ranged(if z < y { z } else { y })
}

/// `1+` of an integer.
pub fn increment(a: Value) -> Result<Value, Class>
    ensures { result ≡ of_integer (λ z. Primitives.ranged (z +ℤ pos 1)) a }
{
    let Some(z) = integer(a) else {
        return Err(Class::TypeError);
    };
    ranged(z + 1)
}

/// `1-` of an integer.
pub fn decrement(a: Value) -> Result<Value, Class>
    ensures { result ≡ of_integer (λ z. Primitives.ranged (z -ℤ pos 1)) a }
{
    let Some(z) = integer(a) else {
        return Err(Class::TypeError);
    };
    ranged(z - 1)
}

/// `abs` of an integer.
pub fn abs(a: Value) -> Result<Value, Class>
    ensures { result ≡ of_integer (λ z. Primitives.ranged (pos (nat_abs z))) a }
{
    let Some(z) = integer(a) else {
        return Err(Class::TypeError);
    };
    ranged(z.abs())
}

/// `floor` of two integers: the quotient, rounded down. It errs with `DivisionByZero` where the second is 0, as the next three do.
pub fn floor(a: Value, b: Value) -> Result<Value, Class>
    ensures { result ≡ divided Primitives.floor_z a b }
{
    let (Some(y), Some(z)) = (integer(a), integer(b)) else {
        return Err(Class::TypeError);
    };
    if z == 0 {
        return Err(Class::DivisionByZero);
    }
    ranged(floored(y, z))
}

/// `truncate` of two integers: the quotient, rounded towards 0.
pub fn truncate(a: Value, b: Value) -> Result<Value, Class>
    ensures { result ≡ divided int_div a b }
{
    let (Some(y), Some(z)) = (integer(a), integer(b)) else {
        return Err(Class::TypeError);
    };
    if z == 0 {
        return Err(Class::DivisionByZero);
    }
    ranged(truncated(y, z))
}

/// `mod` of two integers: what `floor` leaves, which has the sign of the second or is 0.
pub fn modulo(a: Value, b: Value) -> Result<Value, Class>
    ensures { result ≡ divided Primitives.mod_z a b }
{
    let (Some(y), Some(z)) = (integer(a), integer(b)) else {
        return Err(Class::TypeError);
    };
    if z == 0 {
        return Err(Class::DivisionByZero);
    }
    ranged(left(y, z))
}

/// `rem` of two integers: what `truncate` leaves, which has the sign of the first or is 0.
pub fn remainder(a: Value, b: Value) -> Result<Value, Class>
    ensures { result ≡ divided int_rem a b }
{
    let (Some(y), Some(z)) = (integer(a), integer(b)) else {
        return Err(Class::TypeError);
    };
    if z == 0 {
        return Err(Class::DivisionByZero);
    }
    ranged(y % z)
}

/// The quotient, rounded towards 0.
fn truncated(y: i64, z: i64) -> i64
    requires nonzero { z ≢ pos 0 }
    requires first { IsTrue (is_integer y) }
    ensures same { result ≡ int_div y z }
    ensures limit { nat_abs result ≤ 2 ^ 62 }
{
    y / z
}

/// The quotient, rounded down.
fn floored(y: i64, z: i64) -> i64
    requires nonzero { z ≢ pos 0 }
    requires first { IsTrue (is_integer y) }
    requires second { IsTrue (is_integer z) }
    ensures { result ≡ Primitives.floor_z y z }
{
    let quotient = truncated(y, z);
    if is_above(y % z, z) {
        return quotient - 1;
    }
    quotient
}

/// What the quotient that is rounded down leaves.
fn left(y: i64, z: i64) -> i64
    requires nonzero { z ≢ pos 0 }
    requires first { IsTrue (is_integer y) }
    requires second { IsTrue (is_integer z) }
    ensures { result ≡ Primitives.mod_z y z }
{
    if is_above(y % z, z) {
        return y % z + z;
    }
    y % z
}

/// Whether the quotient that leaves this remainder of this divisor, rounded towards 0, is above the exact one.
fn is_above(remainder: i64, divisor: i64) -> bool
    ensures { result ≡ Primitives.is_above remainder divisor }
{
    remainder != 0 && (remainder < 0) != (divisor < 0)
}
