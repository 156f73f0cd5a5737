//! Homes of names.

/// Where the value of a name is kept while code runs.
#[derive(Clone, Copy, PartialEq, Eq)]
pub enum Home {
    /// A register, by its number.
    Register(u8),
    /// A slot of the frame, by its number.
    Slot(u32),
}
