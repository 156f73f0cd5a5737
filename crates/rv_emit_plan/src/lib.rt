//! An order of blocks, and which words scratch registers hold.
#![tactic(auto)]

mod choice;
mod flow;
mod loops;
mod order;
mod placing;
mod planning;
mod regions;
mod search;
pub mod table;

pub use flow::{Flow, Source, Ways, flow_of};
pub use loops::{Loop, Loops, loops_of};
pub use order::{frequency, order_of};
pub use planning::{Plan, plan_of};
pub use search::{Back, Search, search_of};
