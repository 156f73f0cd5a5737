//! Tables by which a stop's reader finds its way in an image, and what is read of the machine there.
#![tactic(auto)]

mod flow;
mod frames;
mod home_writes;
mod names;
mod reading;
mod tables;
mod variable_lists;

pub use frames::{calling_place, frame_of, frame_places, greatest_depth, owner_of};
pub use home_writes::disturbed_places;
pub use reading::{depth, slot_word, stack_pointer};
pub use tables::{NameStarts, Tables, tables_of};
pub use variable_lists::VariableLists;
