//! The copies that reach, by the rule, and that the propagated unit is valid.
#![tactic(auto)]

mod blocks;
mod copies;
mod finding;
mod flow;
mod order;
mod propagation;
mod reading;

pub use copies::CopyAt;
pub use propagation::propagated;
