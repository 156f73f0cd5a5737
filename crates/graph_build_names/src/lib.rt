//! The names of a function's variables, and the scales and conversions of its operands.
#![tactic(auto)]

mod conversion;
mod inner;
mod names;
mod operand;
mod scaling;
mod written;

pub use conversion::{is_kept_constant, is_narrow, keeps_bits, word_of};
pub use inner::{inner_blocks, inner_blocks_of, inner_blocks_within};
pub use names::{
    Home, Names, following, names_of, object_location, object_of, pick, scalar_named, scalar_of,
};
pub use operand::{held, is_two, is_two_pointers, located, operand_at};
pub use scaling::{is_scaled, scaled, shift_of};
pub use written::{is_location_moved, is_moved, is_moved_before, writes, writes_any};
