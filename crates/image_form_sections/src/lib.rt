//! The sections of an image as rows of numbers in its bytes, and the rules that they keep.
#![tactic(auto)]

mod change_rules;
mod checking;
mod code_rules;
mod fault;
mod header;
mod layout;
mod name_rules;
mod node_rules;
mod quiet_rules;
mod rule;
mod section;
mod table;
mod variable_rules;
mod version;

pub use checking::checked;
pub use fault::ImageErr;
pub use header::MAGIC;
pub use layout::{Layout, layout_of};
pub use name_rules::NameKind;
pub use section::{Counts, ORDER, Section, size, whole_size};
pub use table::{Table, number_at};
pub use variable_rules::NO_FUNCTION;
pub use version::{Level, Version, level_of, version_of};
