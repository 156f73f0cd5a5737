//! Arithmetic on words of 32 bits, exactly as RV32IM has it, and the definitions of C's integer types, operations and
//! owners of objects.
#![tactic(auto)]

mod arithmetic;
mod laws;
mod operation;

pub use arithmetic::{
    add, div_signed, div_unsigned, fits_i32, mul, mulh, mulhsu, mulhu, rem_signed, rem_unsigned,
    sll, slt, sltu, sra, srl, sub,
};
pub use laws::operations_are_worked;
pub use operation::{Operation, Truncation, operate, truncate};
