//! Activations, and what the run of a program is.
#![tactic(auto)]

mod activation;
mod beginning;
mod calls;
mod laws;
mod lifetimes;
mod loops;
mod operands;
mod static_storage;
mod switches;

pub use activation::Activation;
pub use calls::{at_close, bind, enter, function_at, handed_back};
pub use laws::runs_are_worked;
pub use lifetimes::{
    close, element_type, forget, initialise, initialise_by_literal, make, store_element,
};
pub use loops::{Round, behind_body, behind_step};
pub use operands::{of_object, of_operand, of_operands, of_right_side};
pub use static_storage::first_memory;
pub use switches::{labelled, left_switch};
