//! Which notes reach a place last, whether the homes that they read were written since, and which homes hold the values
//! of their names.
#![tactic(auto)]

mod chains;
mod found;
mod numbering;
mod states;
mod survey;
mod unshown;

pub use found::{LastNote, Unshown};
pub use unshown::not_shown;
