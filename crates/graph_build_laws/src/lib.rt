//! The unit of a program, which is valid and does what the program does.
#![tactic(auto)]

mod built;
mod graph_marking_laws;
mod graph_program_laws;
mod laws;

pub use built::program_unit;
pub use graph_marking_laws::{markers_follow_flow, notes_may_wait};
pub use graph_program_laws::{units_are_valid, units_do_programs};
pub use laws::{graphs_keep_bounds, graphs_keep_weights, nodes_are_too_few};
