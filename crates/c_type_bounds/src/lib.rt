//! What programs weigh, what their objects take, and the limits on both.
#![tactic(auto)]

mod breach;
mod count;
mod room;
mod visible;
mod weight;
mod weight_of_statement;

pub use breach::{check_functions, program_breach};
pub use weight_of_statement::{definition_weight, tree_weight};
