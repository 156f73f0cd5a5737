//! What can be told of each variable at each place: where its home holds its value, by which recipe it is computed
//! anew, and else which change and which code hide it.
#![tactic(auto)]

mod rows;
mod telling;
mod told;
mod verdict;

pub use currency_writers::Writer;
pub use rows::verdicts;
pub use verdict::{PlaceVerdict, Verdict};
