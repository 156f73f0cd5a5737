//! The members of structures.

use crate::variables::ElementType;

/// A member of a structure; structures are numbered from 0.
#[derive(Clone, Copy)]
pub struct Member {
    /// The number of its structure.
    pub structure: u32,
    /// How many bytes its name has.
    pub name_length: u32,
    /// The byte of the structure at which it begins.
    pub offset: u32,
    pub element: ElementType,
    /// The number of elements of an array, 0 for a scalar.
    pub count: u32,
}
