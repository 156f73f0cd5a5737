//! Declarations of objects: the types that declarators give, and what initializers write.
#![tactic(auto)]

mod automatic;
mod fixed;
mod initial;
mod object;
mod progress;
mod scope;

pub use automatic::{add_automatic, declaration, next_automatic};
pub use fixed::static_declaration;
pub use initial::{look_at_expression, tree_of};
pub use object::size;
pub use progress::Progress;
pub use scope::{declare, empty_scope};
