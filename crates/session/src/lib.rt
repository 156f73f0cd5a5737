//! The top call.
#![tactic(auto)]

mod asking;
mod attaching;
mod building;
mod compiling;
mod debugging;
mod listing;
mod loading;
mod playing;
mod preparing;
mod sweeping;
mod top;

pub use building::{Build, BuildErr, compile};
pub use sweeping::sweep;
pub use top::session;
