//! Basic blocks.

use crate::instruction::Instr;
use crate::name::{Label, Operand};
use debug_records::Place;

/// A comparison of two values by which a block's end branches.
#[derive(Clone, Copy, PartialEq, Eq)]
pub enum Comparison {
    Equal,
    NotEqual,
    /// As signed numbers.
    Less,
    /// As signed numbers.
    AtLeast,
    LessUnsigned,
    AtLeastUnsigned,
}

/// The terminator of a basic block: where control goes from its end.
#[derive(Clone, Copy, PartialEq, Eq)]
pub enum End {
    Jump(Label),
    /// To the one block where the comparison holds, and else to the other.
    Branch {
        comparison: Comparison,
        left: Operand,
        right: Operand,
        then: Label,
        otherwise: Label,
    },
    /// Back to the caller, with a value or none.
    Return(Option<Operand>),
}

/// A basic block.
#[derive(Drop)]
pub struct Block {
    /// The place in force where it begins. In a valid unit each block that does not begin with a marker has one.
    pub place: Option<Place>,
    pub instructions: Vec<Instr>,
    pub end: End,
}
