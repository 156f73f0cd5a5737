//! What is made of a program.

use c_tree::Program;
use graph_homes::HomedUnit;
use image_form::Image;

/// A program, and what was made of it.
#[derive(Drop)]
pub struct ProgramImage {
    pub program: Program,
    /// Its unit, with the homes of its names.
    pub homed: HomedUnit,
    pub image: Image,
    /// The bytes that spell the image.
    pub bytes: Vec<u8>,
}
