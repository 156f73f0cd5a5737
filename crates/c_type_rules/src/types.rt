//! Types of objects and values (6.2.5).

ghost use Rattle.std.specs.Prelude.{◌≡◌};
ghost use Rattle.c_type_rules.specs.Types.{loaded_type, pointed_to, same_integer, same_object, same_scalar, same_value, type_number, value_size};

use crate::integer::size;
use c_tree::{IntegerType, ObjectType, Scalar, ValueType};

/// The number of a type: each has another one.
fn type_number(of: IntegerType) -> u8
    ensures { result ≡ type_number of }
{
    match of {
        IntegerType::Char => 0,
        IntegerType::SignedChar => 1,
        IntegerType::UnsignedChar => 2,
        IntegerType::Short => 3,
        IntegerType::UnsignedShort => 4,
        IntegerType::Int => 5,
        IntegerType::UnsignedInt => 6,
        IntegerType::Long => 7,
        IntegerType::UnsignedLong => 8,
    }
}

/// Whether two integer types are one.
pub fn same_integer(one: IntegerType, other: IntegerType) -> bool
    ensures { result ≡ same_integer one other }
{
    type_number(one) == type_number(other)
}

/// Whether two scalar types are one.
pub fn same_scalar(one: Scalar, other: Scalar) -> bool
    ensures { result ≡ same_scalar one other }
{
    same_integer(one.base, other.base) && one.stars == other.stars
}

/// Whether two types of objects are one.
pub fn same_object(one: ObjectType, other: ObjectType) -> bool
    ensures { result ≡ same_object one other }
{
    match (one, other) {
        (ObjectType::Scalar(left), ObjectType::Scalar(right)) => same_scalar(left, right),
        (
            ObjectType::Array { element, count },
            ObjectType::Array {
                element: of,
                count: all,
            },
        ) => same_scalar(element, of) && count == all,
        _ => false,
    }
}

/// Whether two types of values are one.
pub fn same_value(one: ValueType, other: ValueType) -> bool
    ensures { result ≡ same_value one other }
{
    match (one, other) {
        (ValueType::Void, ValueType::Void) => true,
        (ValueType::Integer(left), ValueType::Integer(right)) => same_integer(left, right),
        (ValueType::Pointer(left), ValueType::Pointer(right)) => same_object(left, right),
        _ => false,
    }
}

/// The type of what an object of a scalar type holds.
pub fn loaded(of: Scalar) -> ValueType
    ensures { result ≡ loaded_type of }
{
    if of.stars == 0 {
        ValueType::Integer(of.base)
    } else {
        ValueType::Pointer(ObjectType::Scalar(pointed_to(of)))
    }
}

/// The type of the objects that a pointer of a scalar type leads to: one star less.
pub fn pointed_to(of: Scalar) -> Scalar
    ensures { result ≡ pointed_to of }
{
    Scalar {
        base: of.base,
        stars: of.stars.saturating_sub(1),
    }
}

/// How many bytes a value of a type has; `void` has none.
pub fn value_size(of: ValueType) -> u32
    ensures { result ≡ value_size of }
{
    match of {
        ValueType::Void => 0,
        ValueType::Integer(integer) => size(integer),
        ValueType::Pointer(_) => 4,
    }
}
