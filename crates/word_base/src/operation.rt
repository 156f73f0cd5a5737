//! The operations that units of the compiler and recipes of the debugger are made of, on words of 32 bits.

ghost use Rattle.std.specs.Prelude.{◌≡◌, ◌<◌};
ghost use Rattle.word_base.specs.WordOperations.{word_operation, sign_extended, truncated};

use crate::arithmetic::{
    add, div_signed, div_unsigned, mul, rem_signed, rem_unsigned, sll, slt, sltu, sra, srl, sub,
};

/// An operation of RV32IM on two words.
#[derive(Clone, Copy, PartialEq, Eq)]
pub enum Operation {
    Add,
    Sub,
    Mul,
    Div,
    Divu,
    Rem,
    Remu,
    Sll,
    Srl,
    Sra,
    And,
    Or,
    Xor,
    Slt,
    Sltu,
}

/// A truncation of a word to a narrower type.
#[derive(Clone, Copy, PartialEq, Eq)]
pub enum Truncation {
    /// The lowest 8 bits, without a sign.
    Unsigned8,
    /// The lowest 16 bits, with their sign.
    Signed16,
    /// The lowest 16 bits, without a sign.
    Unsigned16,
    /// The lowest 8 bits, with their sign.
    Signed8,
}

/// What an operation computes of two words.
#[tactic(auto, unfolding(crate::specs::WordOperations::word_operation))]
pub fn operate(operation: Operation, left: u32, right: u32) -> u32
    ensures { result ≡ word_operation operation left right }
{
    match operation {
        Operation::Add => add(left, right),
        Operation::Sub => sub(left, right),
        Operation::Mul => mul(left, right),
        Operation::Div => div_signed(left, right),
        Operation::Divu => div_unsigned(left, right),
        Operation::Rem => rem_signed(left, right),
        Operation::Remu => rem_unsigned(left, right),
        Operation::Sll => sll(left, right),
        Operation::Srl => srl(left, right),
        Operation::Sra => sra(left, right),
        Operation::And => left & right,
        Operation::Or => left | right,
        Operation::Xor => left ^ right,
        Operation::Slt => slt(left, right),
        Operation::Sltu => sltu(left, right),
    }
}

/// A word that is not below half of a range, less that range: the word of the signed number that has those bits.
fn extend_sign(low: u32, range: u32) -> u32
    requires { low < range }
    ensures { result ≡ sign_extended low range }
{
    if low < range / 2 {
        low
    } else {
        low.wrapping_sub(range)
    }
}

/// What a truncation leaves of a word.
#[tactic(auto, unfolding(crate::specs::WordOperations::truncated))]
pub fn truncate(truncation: Truncation, word: u32) -> u32
    ensures { result ≡ truncated truncation word }
{
    match truncation {
        Truncation::Unsigned8 => word % 0x100,
        Truncation::Signed16 => extend_sign(word % 0x1_0000, 0x1_0000),
        Truncation::Unsigned16 => word % 0x1_0000,
        Truncation::Signed8 => extend_sign(word % 0x100, 0x100),
    }
}
