//! Code as it grows: pieces, scratch registers, places.
#![tactic(auto)]

mod code;
mod constant;
mod operand;
mod piece;
pub mod register;

pub use code::Code;
pub use constant::{high_part, is_small, low_part, words_of_constant};
pub use operand::result_register;
pub use piece::{Held, Piece, PlacedPiece};
