//! Statements in their scopes (6.8): what they mean, and the rules that they break.
#![tactic(auto)]

mod branch;
mod ends;
mod label;
mod made;
mod part;
mod setting;
mod simple;
mod statement;
mod switch;

pub use setting::Setting;
pub use statement::statements;
