//! What a place writes once, and by which change an assignment went.
#![tactic(auto)]

mod removed;
mod writes;

pub use removed::RemovedChanges;
pub use writes::{PlaceWrites, Spot, Written};
