//! What the debugger shows of a variable at a place.

/// What the debugger shows of a variable.
#[derive(Clone, Copy)]
pub enum Verdict {
    /// What its home holds.
    Home,
    /// The value of a recipe, after the assignment was removed.
    Recovered {
        change: u32,
        node: u32,
    },
    /// No value: a path from a start place shows that its home does not hold what the source says. The writer is the
    /// address of the code word that wrote too early or too late, none where the assignment was removed.
    Noncurrent {
        change: u32,
        start: u32,
        writer: Option<u32>,
    },
    /// No value: a path from a start place shows that its home is another name's. The writer is the
    /// address of the code word that wrote it.
    Nonresident {
        change: u32,
        start: u32,
        writer: Option<u32>,
    },
}

/// The verdict on a variable that is visible at a place.
#[derive(Clone, Copy)]
pub struct VisibleRow {
    pub place: u32,
    pub variable: u32,
    pub verdict: Verdict,
    /// The place at which a quiet path begins, if there is one and the version tells.
    pub quiet: Option<u32>,
}

/// The verdict on a variable of a function that waits for a call.
#[derive(Clone, Copy)]
pub struct CallRow {
    /// The address to which the call returns.
    pub address: u32,
    pub variable: u32,
    pub verdict: Verdict,
    /// Which form the path of the verdict has.
    pub path_form: u32,
}
