//! Laws of generated programs.
#![tactic(auto)]

mod laws;

pub use laws::{a_sweep_is_of_a_program, generated_is_a_program};
