//! Where the values of a unit are kept: its frames, and its static memory.
#![tactic(auto)]

mod frame;
mod statics;
mod storage;

pub use frame::{Frame, frame_of_function};
pub use statics::{Statics, initial_bytes, map_of_unit, static_addresses};
pub use storage::{Source, Storage};
