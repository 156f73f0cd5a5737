//! Where a run halts.

/// Where a run came to a halt.
#[derive(Clone, Copy, PartialEq, Eq)]
pub enum Halt {
    /// At a stop: the number of its place, from 1, and the depth of the innermost activation, 1 for the first of main.
    At { place: u32, depth: u32 },
    /// The program exited with this status.
    Exited(i32),
    /// A call found 1,024 activations.
    Depth,
    /// The instruction at this address cannot be carried out.
    Fault(u32),
    /// The instructions that the run may have are used up.
    Limit,
}

/// Where a session stands between two runs.
#[derive(Clone, Copy, PartialEq, Eq)]
pub enum Standing {
    /// Before the first instruction.
    Fresh,
    /// Between two instructions, at no stop: the last run wanted memory for its output there.
    UnderWay,
    /// Where the last run halted.
    Halted(Halt),
}
