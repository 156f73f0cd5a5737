//! The program of a text, and that it keeps the laws of accepted programs.
#![tactic(auto)]

mod laws;
mod source;

pub use laws::cases_are_refused;
pub use source::program;
