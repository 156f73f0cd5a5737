//! The tables of an image.
#![tactic(auto)]

mod assembly;
mod element;
mod functions;
mod names;
mod nodes;
mod numbers;
mod pairs;
mod places_table;
mod rows;
mod storages;
mod variables;

pub use assembly::{Parts, image_of};
pub use functions::functions_of;
pub use names::names_of;
pub use numbers::{entry, number_of, put_entry};
pub use storages::storages_of;
pub use variables::{variable_count, variables_of};
