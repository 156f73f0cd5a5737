//! Programs that are generated from a seed, all of one form.
#![tactic(auto)]

mod generating;

pub use generating::source;
