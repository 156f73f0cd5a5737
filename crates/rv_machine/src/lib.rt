//! A machine that runs RV32IM code.
#![tactic(auto)]

mod access;
mod arithmetic;
mod event;
mod law;
mod machine;

pub use event::Event;
pub use law::{effects_keep, endings_repeat};
pub use machine::Machine;
