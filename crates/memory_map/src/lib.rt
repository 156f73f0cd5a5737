//! Where the regions of memory lie, once for the machine, the image, the emitter and the engine.
#![tactic(auto)]

mod map;

pub use map::{BYTES_SIZE, CODE_START, Map, Room, STACK_SIZE, map_of};
