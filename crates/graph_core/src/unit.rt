//! A unit: the graphs of a program, and what they share.

use crate::graph::Graph;
use crate::instruction::Element;
use debug_records::ChangeLog;
use memory_map::Room;
use places::FlowTable;

/// The address that an element of a static object holds as a run begins: that of a static object, so many bytes on.
#[derive(Clone, Copy, PartialEq, Eq)]
pub struct Relocation {
    /// How many bytes behind the beginning of its object the element begins. Where none begins, nothing reads the
    /// relocation.
    pub at: u32,
    /// The number of the object whose address it holds. Each relocation of a valid unit names an object.
    pub object: u32,
    /// How many bytes behind the beginning of that object. Where it has fewer, nothing is known of the element's value.
    pub offset: u32,
}

/// An object of static storage: a static variable or a string literal. Its number is that of the variable.
#[derive(Drop)]
pub struct StaticObject {
    pub element: Element,
    /// How many elements it has.
    pub count: u32,
    /// Its first bytes, little endian, with zeros in the place of addresses. Those behind them are zero.
    pub bytes: Vec<u8>,
    /// One for each element that holds an address, by ascending `at`. Validity asks for none of this: relocations may
    /// stand in
    /// any order, several at one offset, or so close that their words overlap. A word holds the address of the first
    /// relocation at the
    /// offset where it begins; its bytes are not read then. Of a narrower element at such an offset nothing is known.
    pub relocations: Vec<Relocation>,
}

/// Bytes that initialise an automatic array. They are no object.
#[derive(Drop)]
pub struct Bytes {
    pub bytes: Vec<u8>,
}

/// What stands between a program and its code: one graph for each function, and what they share.
#[derive(Drop)]
pub struct Unit {
    /// By number, which is the functions' order in the text.
    pub graphs: Vec<Graph>,
    /// The number of `main`.
    pub main: u32,
    /// The static variables and then the string literals, each by position.
    pub statics: Vec<StaticObject>,
    /// The literals that initialise automatic arrays, by position.
    pub array_bytes: Vec<Bytes>,
    /// Where execution may go from place to place, and which places assign which variables.
    pub flow: FlowTable,
    /// What the passes changed.
    pub log: ChangeLog,
    /// How much it may have.
    pub room: Room,
}
