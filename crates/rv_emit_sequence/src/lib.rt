//! The pieces of a function's code in their order: by its plan where the plan holds, or as its blocks stand.
#![tactic(auto)]

mod held;
mod plain;
mod planned;
mod sequence;
pub mod table;

pub use plain::plain_sequence_of;
pub use planned::sequence_by_plan;
pub use sequence::Sequence;
