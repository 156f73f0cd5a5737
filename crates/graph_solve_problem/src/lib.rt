//! Problems of facts at the blocks of a graph, what solves them, and a solution by ordered sets.
#![tactic(auto)]

mod directed;
mod facts;
mod flow_graph;
mod plain;
mod problem;
mod rounds;
mod solution;
mod steps;

pub use directed::{begins, directed_edge};
pub use facts::Facts;
pub use flow_graph::{Edge, FlowGraph};
pub use plain::solve_flow_plain;
pub use problem::Problem;
pub use solution::Solution;
pub use steps::Steps;
