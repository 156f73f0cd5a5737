//! Functions, places, changes and the pairs of the flow and assignment tables.

use debug_records::Kind;

/// A function of the program.
#[derive(Clone, Copy)]
pub struct Function {
    /// How many bytes its name has.
    pub name_length: u32,
    /// The address of its first word.
    pub first: u32,
    /// The address behind its last word.
    pub end: u32,
    /// The bytes of its stack frame.
    pub frame: u32,
    /// The number of its entry place.
    pub entry: u32,
    /// The mask of the registers that it saves, 0 where the version does not tell.
    pub saved: u32,
}

/// A place of the source text, where the debugger may stop.
#[derive(Clone, Copy)]
pub struct Place {
    /// The byte of the text at which it begins.
    pub position: u32,
    /// The line of the text, from 1.
    pub line: u32,
    /// The number of its function.
    pub function: u32,
    /// The address of its first word.
    pub address: u32,
}

/// A change that a compiler pass made.
#[derive(Clone, Copy)]
pub struct Change {
    /// How many bytes the name of the pass has.
    pub pass_length: u32,
    pub kind: Kind,
    /// The number of the place that was changed.
    pub place: u32,
    /// The number of the variable that it concerns.
    pub variable: u32,
}

/// Execution may go from the one place directly to the other.
#[derive(Clone, Copy)]
pub struct FlowPair {
    pub from: u32,
    pub to: u32,
}

/// The place assigns the variable.
#[derive(Clone, Copy)]
pub struct AssignedPair {
    pub place: u32,
    pub variable: u32,
}
