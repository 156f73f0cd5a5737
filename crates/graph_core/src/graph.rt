//! The graph of a function.

use crate::block::Block;
use crate::instruction::Element;
use crate::name::Name;
use debug_records::{Place, Var};

/// What a parameter is: its argument becomes the value of a name, or the first element of an automatic object.
#[derive(Clone, Copy, PartialEq, Eq)]
pub enum Binding {
    Scalar(Name),
    Object(u32),
}

/// A variable that is kept in memory: one element, or the elements of an array.
#[derive(Clone, Copy, PartialEq, Eq)]
pub struct MemoryObject {
    pub var: Var,
    pub element: Element,
    /// How many elements it has.
    pub count: u32,
}

/// A scalar variable of a function.
#[derive(Clone, Copy, PartialEq, Eq)]
pub struct Scalar {
    pub var: Var,
    /// The number of its type: equal for two scalars exactly where their C types are equal, so that `int` and `long`
    /// differ.
    pub of: u32,
    /// The place of its declarator, or the function's entry where it is a parameter.
    pub place: Place,
}

/// The graph of a function: its basic blocks, and what they name.
#[derive(Drop)]
pub struct Graph {
    /// The place of the function's entry.
    pub entry: Place,
    /// What the call binds each argument to, before any instruction.
    pub parameters: Vec<Binding>,
    /// The scalar variables by position. They are the names 0, 1, ..
    pub scalars: Vec<Scalar>,
    /// The automatic variables in memory by position. Each activation has an object for each.
    pub objects: Vec<MemoryObject>,
    /// How many names there are: the scalars, and behind them the temporaries.
    pub name_count: u32,
    /// From this name on the temporaries are those that code motion made.
    pub first_moved: u32,
    pub blocks: Vec<Block>,
}
