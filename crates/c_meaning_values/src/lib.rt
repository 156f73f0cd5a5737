//! The memory of a run of a C program: its objects, the values that they hold, and what operators give on values.
#![tactic(auto)]

mod all_objects;
mod memory;
mod operations;
mod types;
mod value;

pub use all_objects::Objects;
pub use memory::{Object, Owner, is_usable, object_of, read};
pub use operations::{
    arithmetic, comparison, convert, is_true, moved_by, pointer_comparison, pointer_difference,
    signed,
};
pub use types::{count_of, element_of, scalar_size};
pub use value::{Phase, Value};
