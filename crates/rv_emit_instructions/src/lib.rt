//! The words of instructions over homes.
#![tactic(auto)]

mod call;
mod filling;
mod form;
mod instruction;
mod memory;
mod operation;

pub use instruction::put_instruction;
pub use memory::put_first;
pub use operation::{put_comparison, put_move, put_operation, put_truncation};
