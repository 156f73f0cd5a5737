//! What instructions name.

/// A name of a graph: a scalar variable, or a temporary behind all of them.
#[derive(Clone, Copy, PartialEq, Eq, PartialOrd, Ord)]
pub struct Name(pub u32);

/// A block of a graph, by its number from 0. Block 0 is the first.
#[derive(Clone, Copy, PartialEq, Eq, PartialOrd, Ord)]
pub struct Label(pub u32);

/// What an instruction reads.
#[derive(Clone, Copy, PartialEq, Eq)]
pub enum Operand {
    /// The value of a name.
    Name(Name),
    /// A word.
    Constant(u32),
    /// The address of a static object, by its number, so many bytes on.
    StaticAddress { object: u32, offset: u32 },
}

/// The word 0: what fills the places of a small vector that no operand takes.
impl Default for Operand {
    fn default() -> Operand {
        Operand::Constant(0)
    }
}
