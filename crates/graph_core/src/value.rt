//! Values, and what a unit's run shows of variables.

/// A value of a name or of an element of an object.
#[derive(Clone, Copy, PartialEq, Eq)]
pub enum Value {
    /// A word. The null pointer is 0.
    Number(u32),
    /// A pointer to an object, by its number among all objects of the run from 0 in the order in which they began: how
    /// many bytes
    /// the object has, and how many bytes behind its beginning the pointer points.
    Pointer {
        object: usize,
        size: u32,
        offset: u32,
    },
    /// Nothing is known of it.
    Odd,
}

/// What a debugger may know of a variable: the value that its last note gave, or that it is gone.
#[derive(Clone, Copy, PartialEq, Eq)]
pub enum Shadow {
    Known(Value),
    Gone,
}

/// What owns an object: a static object's number, or a variable with the depth of its activation, 1 for the first of
/// `main`.
#[derive(Clone, Copy, PartialEq, Eq)]
pub enum Owner {
    Static(usize),
    Automatic { variable: u32, depth: usize },
}
