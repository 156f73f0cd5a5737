//! What is so of notes and homes on all paths to a point.
#![tactic(auto)]

mod function;
mod homes;
mod joining;
mod noted;
mod recipes;
mod showing;
mod state;
mod within;

pub use function::Function;
pub use homes::{Homes, have_one_home, home_count, home_number};
pub use noted::Noted;
pub use recipes::{is_own, is_reader, is_same, reads_home};
pub use state::{State, place_behind};
