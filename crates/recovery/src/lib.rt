//! Recipes, by which a value that was removed is computed anew from homes.
#![tactic(auto)]

mod home;
mod recipe;

pub use home::{FrameHome, home_value, slot_value};
pub use recipe::{PlacedRecipe, value};
