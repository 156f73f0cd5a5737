//! The counts of `sweep` and the lines of `passes`.
#![tactic(auto)]

mod change_lines_lines;
mod lines;
mod names;
mod summary;

pub use change_lines_lines::change_lines;
pub use lines::{PairCounts, out_count_line, pairs_line, seed_line, stops_line};
pub use summary::{Counts, Summary, summarize};
