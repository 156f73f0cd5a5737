//! What is proved of the unit and the tables of each accepted program.
#![tactic(auto)]

mod laws;

pub use laws::built_units_are_marked;
