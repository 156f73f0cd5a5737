//! The words of pieces at their addresses, one function after the other.
#![tactic(auto)]

mod assembling;
mod laying;
mod layout;
mod measuring;
mod reaching;
mod spelling;
mod telling;
mod tracing;

pub use assembling::assemble;
pub use layout::{Layout, Longest, OwnedWord, layout_of, longest_layout};
pub use reaching::Reach;
pub use tracing::{address_of, bindings_of, push_stops, writers_of};
