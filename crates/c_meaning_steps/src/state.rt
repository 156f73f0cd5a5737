//! What a run has at each moment, and how its parts end.

use crate::event::Standing;
use crate::fault::Fault;
use crate::seen::Seen;
use c_meaning_values::{Objects, Value};

/// What a run has.
#[derive(Drop)]
pub struct State<'a> {
    pub memory: Objects,
    /// The input that is left.
    pub input: &'a [u8],
    /// What was seen so far.
    pub seen: Seen,
    /// How many places may still begin.
    pub turns: u64,
    /// The place that the run has come to: that of the last stop or, behind a call, the place of the call.
    pub at: Option<Standing>,
}

/// Why a run goes no further.
#[derive(Clone, Copy, PartialEq, Eq)]
pub enum End {
    /// C does not define what comes next, for a cause.
    Undefined(Fault),
    /// The program ended with this status.
    Exit(i64),
    /// A call found 1,024 activations alive.
    Depth,
    /// No end was reached: the turns are used up.
    Turns,
}

/// What an expression comes to.
#[derive(Clone, Copy)]
pub enum Evaluated {
    /// A value.
    Gives(Value),
    /// No value.
    Leaves,
    /// The run ends within it.
    Ends(End),
}

/// What a statement comes to.
#[derive(Clone, Copy)]
pub enum Outcome {
    Next,
    Broken,
    Continued,
    Returned(Option<Value>),
    Ended(End),
}

/// What two operands come to.
#[derive(Clone, Copy)]
pub enum Operands {
    Pair(Value, Value),
    /// The run ends within one.
    NoPair(End),
}

/// Whether a value is true.
#[derive(Clone, Copy)]
pub enum Tested {
    Holds,
    Fails,
    /// The run ends within the expression.
    NoTest(End),
}
