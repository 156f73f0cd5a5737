//! Values with their types, and what conversions and operators make of them.
#![tactic(auto)]

mod conversion;
mod nodes;
mod operation;
mod pointer;
mod value;
mod writing;

pub use conversion::{converted, null, to_integer};
pub use nodes::node;
pub use operation::{
    Operation, combined, conditional, discarded, is_scalar, negated, sequenced, signed_value,
};
pub use pointer::{address, dereferenced, element_of};
pub use value::{Meant, Value, as_value, meant_type};
pub use writing::{assigned, is_modifiable, is_updatable, stepped, updated};
