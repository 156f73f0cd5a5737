//! The blocks of statements and declarators.
#![tactic(auto)]

mod declaring;
mod form;
mod names;
mod source;
mod statements;

pub use declaring::{add_declared, object_type_of};
pub use form::{
    Form, Part, begun, block_of, branching, coded, coded_from, going, label_for, place_of,
    placed_at, with_end,
};
pub use names::{
    bare, condition_reached, initial_reached, reached, start_reached, statement_reached,
    statements_reached,
};
pub use source::{Source, narrow, place_number};
pub use statements::{add, add_all};
