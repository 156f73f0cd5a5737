//! The places of a source as a table.

use debug_records::Var;

/// A place as a debugger knows it.
#[derive(Drop)]
pub struct PlaceRow {
    /// The offset of the first byte of its token, from 0.
    pub position: u32,
    /// The line of that byte, from 1.
    pub line: u32,
    /// The number of its function, from 0 in text order.
    pub function: u32,
    /// It is the entry of its function, which is no stop.
    pub is_entry: bool,
    /// The variables that are visible there, by position.
    pub visible: Vec<Var>,
}

/// The places of a source in text order: the place of number 1 comes first.
#[derive(Drop)]
pub struct PlaceTable {
    pub rows: Vec<PlaceRow>,
}
