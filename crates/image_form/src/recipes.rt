//! Recipes, by which a removed value is computed anew.

use word_base::{Operation, Truncation};

/// A node of a recipe; its operands are earlier nodes, by their numbers.
#[derive(Clone, Copy)]
pub enum Node {
    Constant(u32),
    /// What a variable's home holds.
    Variable(u32),
    /// What a register holds, by its number below 32, or a slot, by 32 plus its offset.
    Home(u32),
    /// What a truncation leaves of a node's value.
    Truncated {
        truncation: Truncation,
        operand: u32,
    },
    /// What an operation computes of two nodes' values.
    Operated {
        operation: Operation,
        left: u32,
        right: u32,
    },
}
