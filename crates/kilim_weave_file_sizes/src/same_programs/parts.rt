//! Whether types, values and frames are equal.

ghost use Rattle.std.specs.Prelude.{◌≡◌, true};

use crate::same_programs::lists::same_slots;
use kilim_program::{Frame, Ty, Value};
use kilim_units::Units;

/// Two texts.
pub fn same_units(one: &Units, other: &Units) -> bool
    ensures { result ≡ true → one.now ≡ other.now }
{
    one.is_same(other)
}

/// Two types.
pub fn same_ty(one: &Ty, other: &Ty) -> bool
    ensures { result ≡ true → one.now ≡ other.now }
{
    one == other
}

/// Two types, or none.
pub fn same_result(one: Option<Ty>, other: Option<Ty>) -> bool
    ensures { result ≡ true → one ≡ other }
{
    match (one, other) {
        (None, None) => true,
        (Some(a), Some(b)) => a == b,
        _ => false,
    }
}

/// Two values.
pub fn same_value(one: &Value, other: &Value) -> bool
    ensures { result ≡ true → one.now ≡ other.now }
{
    match (one, other) {
        (Value::Int(a), Value::Int(b)) => a == b,
        (Value::Long(a), Value::Long(b)) => a == b,
        (Value::Null, Value::Null) | (Value::Fiber, Value::Fiber) => true,
        (Value::Ref(a), Value::Ref(b)) => a == b,
        (Value::Text(a), Value::Text(b)) => a.is_same(b),
        (Value::Box(a), Value::Box(b)) => a == b,
        _ => false,
    }
}

/// Two constants, or none.
pub fn same_constant(one: &Option<Value>, other: &Option<Value>) -> bool
    ensures { result ≡ true → one.now ≡ other.now }
{
    match (one, other) {
        (None, None) => true,
        (Some(a), Some(b)) => same_value(a, b),
        _ => false,
    }
}

/// Two frames.
pub fn same_frame(one: &Frame, other: &Frame) -> bool
    ensures { result ≡ true → one.now ≡ other.now }
{
    same_slots(one.locals.as_slice(), other.locals.as_slice())
        && same_slots(one.stack.as_slice(), other.stack.as_slice())
}
