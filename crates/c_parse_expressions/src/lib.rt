//! Trees of expressions: the grammar of C (ISO/IEC 9899:2011, 6.5), as far as the language takes it.
#![tactic(auto)]

mod expression;
mod nodes;

pub use expression::{Sort, assignment, comma, conditional, nested};
pub use nodes::{node, push};
