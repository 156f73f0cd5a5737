//! Pieces of code.

use graph_core::Label;
use rv_code::{BranchOperation, Instruction};

/// A constant that a scratch register holds: one of a1 to a7, or s0.
#[derive(Clone, Copy, PartialEq, Eq)]
pub struct Held {
    pub register: u8,
    pub word: u32,
}

/// A piece of code: a word, or a jump, a branch or a call whose distance the layout gives. In a function with n blocks
/// label n is the function's end.
#[derive(Clone, Copy, PartialEq, Eq)]
pub enum Piece {
    /// One word.
    Word(Instruction),
    /// A jump to a block: one word.
    Jump(Label),
    /// A branch to a block: one word where its distance allows that, and else two, the opposite branch over a jump.
    Branch {
        operation: BranchOperation,
        left: u8,
        right: u8,
        to: Label,
    },
    /// A call of a function, by its number: one word.
    Call(u32),
}

/// A piece of code, and what its words stand for.
#[derive(Clone, Copy, PartialEq, Eq)]
pub struct PlacedPiece {
    pub piece: Piece,
    /// The place that its words belong to, or 0.
    pub owner: u32,
    /// Its owner begins here, and is a stop.
    pub is_stop: bool,
    /// The instruction of its block, counted from 0, whose target's home it writes; at the beginning of a function the
    /// parameter that it binds.
    pub writes: Option<u32>,
}
