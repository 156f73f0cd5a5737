//! What writes homes, and where execution may come from with nothing assigned on the way.
#![tactic(auto)]

mod copies;
mod flow;
mod lists;
mod marks;
mod search;
mod ways;
mod writers;

pub use copies::Copies;
pub use lists::{Lists, count_with};
pub use marks::Marks;
pub use search::Search;
pub use ways::Ways;
pub use writers::{Write, Writer, Writers};
