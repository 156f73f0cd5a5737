//! The script of a session.
#![tactic(auto)]

mod command;
mod lines;
mod reading;
mod refusal;
mod words;

pub use command::{Command, Target};
pub use reading::{read, readings_are_one};
pub use refusal::ScriptErr;
