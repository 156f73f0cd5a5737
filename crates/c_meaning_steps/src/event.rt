//! What can be seen of a run.

use c_meaning_values::{Object, Value};

/// An activation of a function: the function by its number in text order from 0, and the place at which it stands, by
/// its number from 1. Where the activation waits for a call, that is the place of the call.
#[derive(Clone, Copy, PartialEq, Eq)]
pub struct Frame {
    pub function: u32,
    pub place: usize,
}

/// A visible variable by its number, and the values that it holds.
#[derive(Drop)]
pub struct Shown {
    pub variable: usize,
    pub values: Vec<Value>,
}

/// A stop: a place is begun.
#[derive(Drop)]
pub struct Stop {
    /// Its number.
    pub place: usize,
    /// How many activations live.
    pub depth: usize,
    /// The activations from the innermost on.
    pub frames: Vec<Frame>,
    /// The visible variables in the order of their positions.
    pub shown: Vec<Shown>,
    /// All objects.
    pub memory: Vec<Object>,
}

/// Where a stop stands.
#[derive(Clone, Copy, PartialEq, Eq)]
pub struct Standing {
    /// The number of the place.
    pub place: usize,
    /// How many activations live.
    pub depth: usize,
    /// The function of the innermost, by its number in text order from 0.
    pub function: u32,
}

/// What can be seen of a run.
#[derive(Drop)]
pub enum Event {
    /// A byte is put out.
    Put(u8),
    /// The program ends with this status.
    Exited(i64),
    /// A call found 1,024 activations alive.
    TooDeep,
    Stop(Stop),
}

/// Why a run goes no further.
#[derive(Clone, Copy, PartialEq, Eq)]
pub enum Ending {
    /// C does not define what comes next.
    Undefined,
    /// The program ended with this status.
    Exit(i64),
    /// A call found 1,024 activations alive.
    Depth,
    /// No end was reached: the turns are used up.
    Turns,
}
