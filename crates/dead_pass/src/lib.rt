//! The removal of dead assignments from a unit.
#![tactic(auto)]

mod notes;
mod pass;

pub use pass::remove_dead;
