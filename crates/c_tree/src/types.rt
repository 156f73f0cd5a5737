//! Types as a source names them.

/// An integer type (ISO/IEC 9899:2011, 6.2.5).
#[derive(Clone, Copy, PartialEq, Eq)]
pub enum IntegerType {
    Char,
    SignedChar,
    UnsignedChar,
    Short,
    UnsignedShort,
    Int,
    UnsignedInt,
    Long,
    UnsignedLong,
}

/// What the specifiers of a function's result or of a cast name.
#[derive(Clone, Copy, PartialEq, Eq)]
pub enum Base {
    Void,
    Integer(IntegerType),
}

/// The type of a cast: a base, and how many `*` stand behind it.
#[derive(Clone, Copy, PartialEq, Eq)]
pub struct TypeName {
    pub base: Base,
    pub stars: usize,
}
