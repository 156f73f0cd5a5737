//! What an instruction shows to the outside.

/// What comes of one instruction.
#[derive(Clone, Copy, PartialEq, Eq)]
pub enum Event {
    /// The machine went on.
    Went,
    /// The machine put out this byte, and went on.
    Out(u8),
    /// The program exited with this status.
    Exited(i32),
    /// The program said that its calls nest too deep.
    Depth,
    /// The instruction at this address cannot be carried out.
    Fault(u32),
}
