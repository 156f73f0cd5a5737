//! Computations by numbers, and the rule of where they are done.
#![tactic(auto)]

mod columns;
mod computation;
mod computations;
mod words;

pub use columns::{Column, Local, NOTHING};
pub use computation::Computation;
pub use computations::{Computations, is_flagged};
pub use words::{both, either, is_in, only, without};
