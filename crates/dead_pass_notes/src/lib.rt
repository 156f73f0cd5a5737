//! What notes say after the removal of assignments, and that the unit is valid.
#![tactic(auto)]

mod blocks;
mod graphs;
mod idle_graph;
mod notes;
mod recipes;
mod rows;
mod scans;
mod spots;
mod walks;
mod ways;
mod writes;

pub use graphs::removed_writes;
pub use idle_graph::IdleGraph;
pub use notes::Notes;
pub use recipes::NotePoint;
pub use rows::stale_names;
pub use spots::{instructions_from, instructions_left};
pub use walks::{begin, step};
pub use ways::Ways;
