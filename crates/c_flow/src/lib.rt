//! The flow of a program, what its places assign, and what is visible there.
#![tactic(auto)]

mod assigned;
mod assignment_table;
mod beginning;
mod c_place_table_tables;
mod edge;
mod flow_edges;
mod laws;
mod limits;
mod numbering;
mod order;
mod step_table;
mod tables;
mod variables;
mod visibility;
mod visible_variables;

pub use beginning::{start, start_of_all, start_of_declarators};
pub use c_place_table_tables::place_table;
pub use edge::Ways;
pub use flow_edges::{round_of, ways_of_body, within_loop};
pub use laws::flows_are_worked;
pub use limits::fits;
pub use numbering::{number_in, positions_of};
pub use tables::flow_table;
pub use variables::automatic_number;
