//! Tables become an image: they are written, and what is read back says the same.
#![tactic(auto)]

mod fitting;
mod spelling;

pub use fitting::tables_fit;
pub use spelling::{SpelledImage, spelled_image};
