//! The grammar as a relation of tokens and trees, and the parser that meets it.
#![tactic(auto)]

mod file;
mod laws;
mod source;

pub use laws::{trees_are_bound, trees_are_one};
pub use source::parse;
