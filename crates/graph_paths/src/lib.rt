//! The blocks that paths reach, in order, and rows of bits that answer for any number.
#![tactic(auto)]

mod bit_table;
mod flood;
mod lists;
mod marks;
mod order;
mod reached;

pub use bit_table::BitTable;
pub use flood::{Transfer, settle};
pub use lists::{entry, flag, list, no_lists, push_to, put_entry, put_flag};
pub use marks::Marks;
pub use order::{reached_in_order, successor};
pub use reached::reached_blocks;
