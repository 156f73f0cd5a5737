//! Names and types of whole sources: the typed program, or why there is none.
#![tactic(auto)]

mod fault;
mod function;
mod header;
mod item;
mod main_function;
mod source;

pub use source::check;
