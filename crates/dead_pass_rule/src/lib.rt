//! The rule of the removal of dead assignments: which writes of a graph are idle, and a cascade that finds just these.
#![tactic(auto)]

mod asked;
mod cascade;
mod free;
mod turns;

pub use cascade::idle_writes;
pub use turns::{is_computation, turn_at};
