//! The types of a program: how many bytes they have, and their zeros (ISO/IEC 9899:2011, 6.2.5, 6.5.3.4).

ghost use Rattle.std.specs.Prelude.{◌≡◌, ◌<◌, ◌≤◌, ◌^◌};
ghost use Rattle.c_meaning_values.specs.Types.{scalar_size, size, element_scalar, value_count, zero_of};

use crate::value::Value;
use c_tree::{IntegerType, ObjectType, Scalar};

/// How many bytes an integer or a pointer has.
pub fn scalar_size(of: Scalar) -> u64
    ensures bytes { result ≡ scalar_size of }
    ensures positive { 0 < result }
    ensures bounded { result ≤ 4 }
{
    if of.stars > 0 {
        return 4;
    }
    match of.base {
        IntegerType::Char | IntegerType::SignedChar | IntegerType::UnsignedChar => 1,
        IntegerType::Short | IntegerType::UnsignedShort => 2,
        IntegerType::Int
        | IntegerType::UnsignedInt
        | IntegerType::Long
        | IntegerType::UnsignedLong => 4,
    }
}

/// How many bytes an object of a type has.
pub fn size(of: ObjectType) -> u64
    ensures bytes { result ≡ size of }
    ensures bounded { result < 2 ^ 34 }
{
    match of {
        ObjectType::Scalar(scalar) => scalar_size(scalar),
        ObjectType::Array { element, count } => u64::from(count) * scalar_size(element),
    }
}

/// The type of the values that an object holds.
pub fn element_of(of: ObjectType) -> Scalar
    ensures { result ≡ element_scalar of }
{
    match of {
        ObjectType::Scalar(scalar) => scalar,
        ObjectType::Array { element, .. } => element,
    }
}

/// How many values an object holds.
pub fn count_of(of: ObjectType) -> u32
    ensures { result ≡ value_count of }
{
    match of {
        ObjectType::Scalar(_) => 1,
        ObjectType::Array { count, .. } => count,
    }
}

/// The value of a type that is zero: the number 0, or the null pointer.
pub fn zero_of(of: Scalar) -> Value
    ensures { result ≡ zero_of of }
{
    if of.stars > 0 {
        Value::Null
    } else {
        Value::Number(0)
    }
}
