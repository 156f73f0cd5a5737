//! What an expression means in its scope, each construct made of what its parts mean, and the rules that it breaks.
#![tactic(auto)]

mod call;
mod expressions;
mod findings;
mod judgement;
mod names;
mod operand;

pub use expressions::{expression, value};
pub use findings::{Fault, Findings};
pub use judgement::{count_of, numbered};
pub use names::{Meaning, Names, Scope, Signature};
pub use operand::is_zero;
