//! The passes of the program, with their names.
#![tactic(auto)]

mod laws;
mod passes;

pub use laws::{
    changes_are_earned, counts_tell_times, functions_never_grow, motion_is_optimal,
    no_pass_is_idle, what_is_left_is_refused,
};
pub use passes::{CopyPropagation, DeadRemoval, LazyMotion};
