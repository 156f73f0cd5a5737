//! Declarations and statements at the front of tokens.
#![tactic(auto)]

mod clause;
mod declarator;
mod initializer;
mod statement;

pub use clause::{
    ForHeader, begins_header, begins_statement, break_statement, condition, continue_statement,
    empty, expression_statement, for_header, held, labels, return_statement,
};
pub use declarator::{begun_declaration, brackets, declaration, identifier, named_declarator};
pub use statement::block;
