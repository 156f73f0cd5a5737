//! Lazy code motion: the moved unit, which is valid, and how often a computation is done along a path.
#![tactic(auto)]

mod bounds;
mod cases;
mod moving;
mod pass;
mod times;

pub use motion_pass_points::Computation;
pub use pass::move_code;
pub use times::counts;
