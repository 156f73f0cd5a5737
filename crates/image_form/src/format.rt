//! An image as its sections.

use crate::members::Member;
use crate::recipes::Node;
use crate::tables::{AssignedPair, Change, FlowPair, Function, Place};
use crate::variables::Variable;
use crate::verdicts::{CallRow, VisibleRow};
use debug_records::Mode;
use image_form_sections::Version;

/// Machine code with the tables that its debugger reads.
///
/// Functions, variables, code words and nodes are numbered from 0, places and changes from 1.
#[derive(Drop)]
pub struct Image {
    /// The version that it is written as.
    pub version: Version,
    /// Where the compiler put scalars.
    pub mode: Mode,
    /// The machine words, from the start of the code on.
    pub code: Vec<u32>,
    /// The bytes that lie at the front of static memory when the program starts.
    pub initial: Vec<u8>,
    pub functions: Vec<Function>,
    pub places: Vec<Place>,
    /// For each code word the number of the place that it belongs to, or 0.
    pub owners: Vec<u32>,
    pub variables: Vec<Variable>,
    pub changes: Vec<Change>,
    pub flow: Vec<FlowPair>,
    pub assigned: Vec<AssignedPair>,
    pub rows: Vec<VisibleRow>,
    /// The rows of calls, none where the version has no such rows.
    pub calls: Vec<CallRow>,
    /// The members of structures, structure after structure.
    pub members: Vec<Member>,
    pub nodes: Vec<Node>,
    /// The names of the functions, the variables and the passes of the changes, one after the other.
    pub names: Vec<u8>,
}
