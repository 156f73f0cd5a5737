//! The code of expressions.
#![tactic(auto)]

mod expression;
mod parts;

pub use expression::code;
