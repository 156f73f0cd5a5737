//! That copy propagation keeps what a unit does.
#![tactic(auto)]

mod laws;

pub use laws::{copies_do_programs, copies_keep};
