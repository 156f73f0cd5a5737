//! Whether a place of a program assigns a variable, told without a table.
#![tactic(auto)]

mod assignment_search;
mod places_before;

pub use assignment_search::assigns;
