//! Variables, their types and where they are kept.

/// The type of a scalar, or of an array's elements.
#[derive(Clone, Copy)]
pub enum ElementType {
    U8,
    I8,
    U16,
    I16,
    U32,
    I32,
    Pointer,
}

/// Where a variable is kept.
#[derive(Clone, Copy)]
pub enum Storage {
    /// In static memory, at an address.
    Static(u32),
    /// In memory, at an offset in its function's frame.
    Frame(u32),
    /// In a register, by its number.
    Register(u32),
    /// In a slot, at an offset in its function's frame.
    Slot(u32),
}

/// A variable of the program, or a string literal, which has no name.
#[derive(Clone, Copy)]
pub struct Variable {
    /// How many bytes its name has, 0 for a literal.
    pub name_length: u32,
    /// The number of its function, or none for a static one.
    pub function: Option<u32>,
    /// The byte of the text at which it is declared.
    pub position: u32,
    pub element: ElementType,
    pub storage: Storage,
    /// The number of elements of an array, 0 for a scalar.
    pub count: u32,
}
