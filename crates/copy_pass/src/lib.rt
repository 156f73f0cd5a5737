//! Copy propagation: the search, its changes, the unit.
#![tactic(auto)]

mod blocks;
mod graphs;
mod names;
mod propagation;
mod regions;
mod replaced_reads_blocks;
mod replaced_reads_graphs;
mod sources;

pub use propagation::propagate_copies;
pub use replaced_reads_graphs::replaced_reads;
