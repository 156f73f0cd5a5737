//! Facts at the blocks of a graph, solved as the meet over all paths.
#![tactic(auto)]

mod begin;
mod first;
mod graph;
mod sets;
mod solved_rows;
mod solving;
mod tables;
mod task;
mod work;

pub use graph::{
    flow_graph, solve, solve_counted, solve_in_rows, solve_in_tables, solve_plain,
    targets_are_within,
};
pub use solved_rows::SolvedRows;
pub use solving::{Tables, solve_rows};
pub use tables::{Bits, table_of};
