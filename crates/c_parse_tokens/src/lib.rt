//! What stands at the front of a list of tokens: marks, operators and specifiers of types, and where reading stops.
#![tactic(auto)]

mod fault;
mod front;
mod mark;
mod operators;
mod specifier;

pub use fault::{ParseErr, Stuck};
pub use front::{
    behind, extent_before, is_at, last_before, one_less, refusal, spot_at, stuck, want,
};
pub use mark::Mark;
pub use operators::{LEVELS, assignment_at, begins_expression, operator_at, prefix_operator};
pub use specifier::{Place, SpecifierList, begins_type, specifiers, stars, type_behind};
