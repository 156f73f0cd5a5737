//! What the emitter gives.

use memory_map::Map;

/// The code of a function, and where its parts lie. Addresses and offsets are in bytes.
#[derive(Drop)]
pub struct EmittedFunction {
    /// The address of its first word, which is that of its entry's place.
    pub first: u32,
    /// The address behind its last word.
    pub end: u32,
    /// The size of its frame.
    pub frame: u32,
    /// The offset in the frame of slot 0; the others follow it.
    pub slots: u32,
    /// The offset in the frame of each memory object.
    pub objects: Vec<u32>,
    /// For each parameter, the address of the word that writes its home or its object, as a call binds it.
    pub bindings: Vec<u32>,
    /// For each instruction, block by block, the address of the word that writes its target's home; 0 for one without a
    /// target.
    pub writers: Vec<u32>,
}

/// A place that is no entry, and its address.
#[derive(Clone, Copy)]
pub struct PlacedStop {
    pub place: u32,
    pub address: u32,
}

/// The code of a unit, from the first address of code on.
#[derive(Drop)]
pub struct Emitted {
    /// Where the regions of memory lie.
    pub map: Map,
    pub code: Vec<u32>,
    /// The place of each word, 0 for none.
    pub owners: Vec<u32>,
    /// What stands in static memory before the run.
    pub initial: Vec<u8>,
    /// The address of each static object.
    pub statics: Vec<u32>,
    /// In the order of the markers in the graphs.
    pub stops: Vec<PlacedStop>,
    /// By function.
    pub functions: Vec<EmittedFunction>,
}
