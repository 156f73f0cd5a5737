//! Blocks drafted from their ends, and the instructions of operations and steps.
#![tactic(auto)]

mod arms;
mod change;
mod comparisons;
mod draft;
mod goal;
mod operations;
mod rules;
mod site;

pub use arms::{arm_goal, arm_use, arm_value, leading_to, object_address};
pub use change::{
    Change, assigned_memory, left_memory, left_scalar, loaded_first, one_at, renewed_memory,
    renewed_scalar,
};
pub use draft::{
    Computation, Draft, Fork, call, clear, closed, compute, copy, ending, marked, move_if,
    next_label, note, store,
};
pub use goal::{
    Goal, assign_goal, behind_old, follow, keep_old, leaf, left_free, noted, stored, target,
    tested, use_of, use_old, used, valued,
};
pub use operations::{
    called_by, compared, compared_pointers, forked, held_location, hold_location, operated, renew,
    scale, scaled_pair, unscaling,
};
pub use rules::{
    callee_for, element_of, integer_element, is_signed, less_by, move_by, operation_for, steps_by,
    truncation_to,
};
pub use site::{Site, Two, finished, label_of, narrowed, negated, signed};
