//! What is told of where values stand.

use graph_core::{Location, Operand};
use smallvec::SmallVec;

/// What a value is for.
#[derive(Clone, Copy, PartialEq, Eq)]
pub enum Use {
    /// To stand anywhere.
    Anywhere,
    /// To stand in a name.
    In(u32),
    /// For nothing.
    Nothing,
    /// To be tested.
    Tested,
}

/// Where a value stands.
#[derive(Clone, Copy)]
pub struct Laid {
    pub value: Operand,
    /// The first name that is free while the value is wanted.
    pub next: u32,
    /// The first name behind all that were used.
    pub top: u32,
}

/// Two values, where the first one is moved to a name of its own if the code of the second writes it.
#[derive(Clone, Copy)]
pub struct Pair {
    /// Where the first value stands before it is moved.
    pub first: Operand,
    /// Where it stands while it is wanted.
    pub left: Operand,
    pub right: Operand,
    pub moved: bool,
    /// The name that it is moved to, if it is.
    pub moved_to: u32,
    /// The name that is free where the second one begins.
    pub from: u32,
    pub next: u32,
    pub top: u32,
}

/// Where an object in memory is found.
#[derive(Clone, Copy)]
pub struct PlaceLaid {
    pub location: Location,
    pub next: u32,
    pub top: u32,
}

/// Where the values of arguments stand, each moved to a name of its own if a later one writes it.
#[derive(Drop)]
pub struct PassedLaid {
    pub values: SmallVec<Operand, 4>,
    pub next: u32,
    pub top: u32,
}
