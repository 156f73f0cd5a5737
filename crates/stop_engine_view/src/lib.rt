//! What is read of an image and of its machine at a stop: definitions for debuggers and compilers alike.
#![tactic(auto)]

mod target;

pub use target::Target;
