//! Rows of bits in words, for sets of numbers that meet often.
#![tactic(auto)]

mod rows;
mod words;

pub use rows::Rows;
