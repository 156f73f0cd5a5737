//! From a program to its unit.
#![tactic(auto)]

mod function;
mod statics;
mod unit;
mod variables;

pub use unit::build;
