//! The registers that code uses beside those that are homes, by number.

/// The register that is always 0.
pub const ZERO: u8 = 0;

/// The address to which a function returns.
pub const RA: u8 = 1;

/// The address of the innermost frame.
pub const SP: u8 = 2;

/// An address in static memory, from which others are reached.
pub const GP: u8 = 3;

/// How many activations may still begin.
pub const TP: u8 = 4;

/// Scratch: the base of a slot that lies far from `SP`.
pub const T0: u8 = 5;

/// Scratch: the first operand, or a result on its way to a slot.
pub const T1: u8 = 6;

/// Scratch: the second operand, or an address.
pub const T2: u8 = 7;

/// Scratch: holds a constant.
pub const S0: u8 = 8;

/// The first argument, or the result. The other arguments pass in the seven registers behind it, which else hold
/// constants.
pub const A0: u8 = 10;

/// The last argument, or which call of the environment an `ecall` is.
pub const A7: u8 = 17;
