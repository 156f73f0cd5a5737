//! What is shown of variables where a machine stands at a stop.
#![tactic(auto)]

mod pointers;
mod recipes;
mod rows;
mod shown;
mod values;
mod views;
mod visible;

pub use rows::row_shown;
pub use shown::{Shown, shown_line};
pub use views::name_shown;
pub use visible::rows_at;
