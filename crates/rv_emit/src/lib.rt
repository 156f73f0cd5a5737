//! The code of a unit whose names have homes, and that its run shows what the unit shows.
#![tactic(auto)]

mod constants;
mod counting;
mod emitting;

pub use emitting::emit;
