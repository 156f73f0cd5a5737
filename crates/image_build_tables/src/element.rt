//! Types of elements.

ghost use Rattle.std.specs.Prelude.{◌≡◌};
ghost use Rattle.image_build_tables.specs.Variables.{element_count, element_by_stars, element_of_object, element_of_integer};

use c_tree::{IntegerType, ObjectType, Scalar};
use image_form::ElementType;

/// The element type of an image that an integer type is.
fn of_integer(integer: IntegerType) -> ElementType
    ensures { result ≡ element_of_integer integer }
{
    match integer {
        IntegerType::Char | IntegerType::UnsignedChar => ElementType::U8,
        IntegerType::SignedChar => ElementType::I8,
        IntegerType::Short => ElementType::I16,
        IntegerType::UnsignedShort => ElementType::U16,
        IntegerType::Int | IntegerType::Long => ElementType::I32,
        IntegerType::UnsignedInt | IntegerType::UnsignedLong => ElementType::U32,
    }
}

/// The element type of an image that a scalar type is.
fn of_scalar(scalar: Scalar) -> ElementType
    ensures { result ≡ element_by_stars scalar.base scalar.stars }
{
    if scalar.stars > 0 {
        ElementType::Pointer
    } else {
        of_integer(scalar.base)
    }
}

/// The type of an object's elements, and how many it has; 0 for a scalar.
pub fn elements_of(of: ObjectType) -> (ElementType, u32)
    ensures element { result.0 ≡ element_of_object of }
    ensures count { result.1 ≡ element_count of }
{
    match of {
        ObjectType::Scalar(scalar) => (of_scalar(scalar), 0),
        ObjectType::Array { element, count } => (of_scalar(element), count),
    }
}
