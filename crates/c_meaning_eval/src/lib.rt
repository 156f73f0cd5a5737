//! The run of a C program, as it is defined.
#![tactic(auto)]

mod execution;
mod source_run;
mod statements;

pub use source_run::{RunInShort, SourceRun, eval, eval_in_short};
