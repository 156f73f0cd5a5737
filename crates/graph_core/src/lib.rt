//! The graphs between a program's tree and its code: what they are, and what they do.
#![tactic(auto)]

mod block;
mod bounds;
mod duplicate;
mod graph;
mod instruction;
mod name;
mod place_table;
mod recipe;
mod unit;
mod uses;
mod validity;
mod value;

pub use block::{Block, Comparison, End};
pub use bounds::{
    MAX_ACTIVATIONS, MAX_FUNCTION_BYTES, MAX_FUNCTION_INSTRUCTIONS, MAX_FUNCTIONS, MAX_NAMES,
    MAX_PARAMETERS, MAX_RECIPE_DEPTH, MAX_STATIC_BYTES, max_arguments, max_blocks,
    max_instructions, max_markers,
};
pub use graph::{Binding, Graph, MemoryObject, Scalar};
pub use instruction::{Callee, Element, Instr, Location};
pub use memory_map::Room;
pub use name::{Label, Name, Operand};
pub use recipe::{NoteValue, Recipe};
pub use unit::{Bytes, Relocation, StaticObject, Unit};
pub use uses::Targets;
pub use value::{Owner, Shadow, Value};
