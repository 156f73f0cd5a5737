//! Units over homes: where names are kept, what such a unit does, whose its objects are.
#![tactic(auto)]

mod home;
mod homed;

pub use home::Home;
pub use homed::{FunctionHomes, HomedUnit};
