//! The places of a source, and the paths along which its execution may go.
#![tactic(auto)]

mod flow;
mod paths;
mod routes;
mod search;
mod table;

pub use flow::{Assignment, FlowStep, FlowTable};
pub use paths::{Path, is_path};
pub use routes::{route, route_past};
pub use table::{PlaceRow, PlaceTable};
