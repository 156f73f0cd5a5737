//! What a body keeps in memory and where it ends, and the places of a program.
#![tactic(auto)]

mod flow;
mod listing;
mod memory;
mod place;

pub use flow::{has_default, reaches_end};
pub use listing::places_of_program;
pub use memory::kept_in_memory;
pub use place::{Place, number_at, scope_at, visible};
