//! Runs an image from stop to stop, and shows what stands there.
#![tactic(auto)]

mod activations;
mod breaks;
mod course;
mod depths;
mod engine;
mod function_names;
mod halt;
mod lines;
mod locals;
mod run;
mod stop_table;
mod stops;

pub use activations::Frame;
pub use engine::Engine;
pub use halt::Halt;
pub use locals::Local;
pub use stop_engine_texts::Shown;
pub use stops::{Marks, Stops};
