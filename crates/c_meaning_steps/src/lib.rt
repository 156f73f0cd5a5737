//! The states of a run of a C program, its events, and what is done once operands have their values.
#![tactic(auto)]

mod event;
mod fault;
mod joints;
mod log;
mod seen;
mod state;
mod steps;

pub use event::{Ending, Event, Frame, Shown, Standing, Stop};
pub use fault::Fault;
pub use joints::{
    arithmetic_from, assigned, comparison_from, convert_from, decay_from, difference_from, discard,
    effect, load_from, located, moved_behind, moved_from, not_of, pointer_comparison_from, second,
    sign_from, step, step_pointer, tested, truth_of, update, update_pointer, usable_from,
};
pub use log::Log;
pub use seen::Seen;
pub use state::{End, Evaluated, Operands, Outcome, State, Tested};
pub use steps::{given, leave, named, next_byte, put};
