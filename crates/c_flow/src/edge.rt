//! Steps from place to place, by the positions of places.

/// Execution may go from the place at the one position directly to the place at the other.
#[derive(Clone, Copy)]
pub struct Edge {
    pub from: u32,
    pub to: u32,
}

/// Where execution goes from a statement, by the positions of places. There is none where the closing brace of the
/// function would follow and is no place,
/// and outside of loops by `break` and `continue`.
#[derive(Clone, Copy)]
pub struct Ways {
    /// To what follows it.
    pub next: Option<u32>,
    /// Where `break` leads.
    pub by_break: Option<u32>,
    /// Where `continue` leads.
    pub by_continue: Option<u32>,
}
