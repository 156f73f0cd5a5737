//! The image of a program: unit, passes, homes, code, verdicts, tables.
#![tactic(auto)]

mod building;
mod drafting;
mod program_image;
mod shown;
mod telling;
mod trails;

pub use building::{image_of_program, image_of_unit};
pub use drafting::unit_of;
pub use program_image::ProgramImage;
pub use shown::slot_verdicts;
pub use trails::trail_of;
