//! Blocks and the edges between them.

/// Execution may go from the end of the one block to the start of the other.
#[derive(Clone, Copy, PartialEq, Eq, PartialOrd, Ord)]
pub struct Edge {
    pub from: u32,
    pub to: u32,
}

/// The blocks of a function, numbered from 0, the entry, and where execution goes.
#[derive(Drop)]
pub struct FlowGraph {
    /// For each block whether the function may end at its end.
    pub ends: Vec<bool>,
    /// In any order.
    pub edges: Vec<Edge>,
}
