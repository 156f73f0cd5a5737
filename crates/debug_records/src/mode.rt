//! Where the values of scalars are kept.

/// Where the values of a program's scalar variables are kept while it runs.
#[derive(Clone, Copy, PartialEq, Eq)]
pub enum Mode {
    /// Each in a slot of the stack of its own.
    Slots,
    /// In registers, which they share as far as these suffice.
    Registers,
}
