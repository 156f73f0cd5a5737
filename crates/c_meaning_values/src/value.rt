//! Values, and what becomes of the objects that hold them (ISO/IEC 9899:2011, 6.2.4 and 6.2.6).

/// A value.
#[derive(Clone, Copy, PartialEq, Eq)]
pub enum Value {
    /// A whole number of an integer type.
    Number(i64),
    /// The null pointer.
    Null,
    /// A pointer to an object, by its number among all objects of the run from 0 in the order in which they began, so
    /// many bytes on.
    Pointer { object: usize, offset: u128 },
}

/// How far the lifetime of an object has come (6.2.4).
#[derive(Clone, Copy, PartialEq, Eq)]
pub enum Phase {
    /// Its own initializer is being evaluated, and nothing was stored in it yet.
    Initialising,
    /// It can be read and written.
    Live,
    /// Its lifetime is over.
    Ended,
}
