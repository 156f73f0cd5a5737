//! Types of objects and values (ISO/IEC 9899:2011, 6.2.5).

use crate::types::IntegerType;

/// A scalar type: an integer type, or a pointer, by so many `*`, that leads to one.
#[derive(Clone, Copy, PartialEq, Eq)]
pub struct Scalar {
    pub base: IntegerType,
    /// 0 for an integer type.
    pub stars: usize,
}

/// The type of an object.
#[derive(Clone, Copy, PartialEq, Eq)]
pub enum ObjectType {
    Scalar(Scalar),
    /// So many elements, at least one.
    Array { element: Scalar, count: u32 },
}

/// The type of a value.
#[derive(Clone, Copy, PartialEq, Eq)]
pub enum ValueType {
    /// No value.
    Void,
    Integer(IntegerType),
    /// A pointer to objects of a type.
    Pointer(ObjectType),
}

/// An object: a named one of static storage by its number among those, a named one of automatic storage by its number
/// among those, or a string literal by its number among the literals that are objects, each numbered from 0 by
/// position.
#[derive(Clone, Copy, PartialEq, Eq)]
pub enum Object {
    Static(u32),
    Automatic(u32),
    Literal(u32),
}
