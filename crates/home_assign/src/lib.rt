//! Which names interfere, and the homes of the names of a unit.
#![tactic(auto)]

mod assigning;
mod choosing;
mod copies;
mod holders;
mod interference;
mod joins;
mod laws;
mod moves;
mod pairs;
mod registers;
mod rows;
mod sharing;
mod walk;

pub use assigning::assign;
pub use interference::interference_of;
pub use joins::first_joined;
pub use laws::{names_lead_homes, slots_hold_names, stops_show_homes};
pub use moves::{Moves, moved_by};
pub use registers::Interference;
pub use sharing::log_shared;
