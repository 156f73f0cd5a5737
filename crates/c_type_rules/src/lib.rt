//! Integer types, conversions, constant expressions, and the types of the values of typed expressions.
#![tactic(auto)]

mod constancy;
mod constant;
mod integer;
mod types;
mod value_type;

pub use constancy::{
    Constancy, and_constant, arithmetic_constant, comparison_constant, conditional_constant,
    converted_constant, is_formed, not_constant, or_constant, sign_constant, truth,
};
pub use constant::{calculated, compared, in_range, signed};
pub use integer::{
    common, number_of, object_size, promoted, residue, room, scalar_size, size, wrapped,
};
pub use types::{
    loaded, pointed_to, same_integer, same_object, same_scalar, same_value, value_size,
};
pub use value_type::{
    decayed, given_by, integer_in, is_pointer, is_void, object_type, results_of, type_of,
};
