//! Where computations are done and read, and what a moved unit is.
#![tactic(auto)]

mod columns;
mod fates;
mod placement;

pub use placement::{Action, Motion, Placement, place};
