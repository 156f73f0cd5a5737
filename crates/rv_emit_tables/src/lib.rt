//! What the tables of an image say of the code of a unit.
#![tactic(auto)]

mod emitted;

pub use emitted::{Emitted, EmittedFunction, PlacedStop};
