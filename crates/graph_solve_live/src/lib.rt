//! Facts inside the blocks of a graph, and the names that are read later.
#![tactic(auto)]

mod flow;
mod inside;
mod laws;
mod live_names;
mod rows;

pub use inside::{Effect, Effects, step_over, step_over_end, walk_over};
pub use laws::{is_live_inside, unread_is_not_read_first, walk_is_met, walk_is_transfer};
pub use live_names::{live, live_before, live_before_end, live_rows};
pub use rows::LiveRows;
