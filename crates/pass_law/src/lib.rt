//! The law of passes, what a change must be, and the run of a list of passes.
#![tactic(auto)]

mod cases;
mod laws;
mod list;
mod names;
mod pass;

pub use cases::{Case, log_cases};
pub use laws::{changes_are_borne_out, definitions_are_met, keeping_composes, logs_are_bounded};
pub use list::{MAX_LIST_LENGTH, RunErr, Trail, are_handed_in, run_list, run_passes};
pub use names::name_of;
pub use pass::Pass;
