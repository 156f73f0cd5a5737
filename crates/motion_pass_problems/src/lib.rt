//! The four problems of lazy code motion, solved 64 computations at once.
#![tactic(auto)]

mod flow;
mod problems;
mod reach;

pub use flow::{Flow, Passage, leaving};
pub use problems::{Facts, Problems, word_of};
pub use reach::{comes_back, reached_flags};
