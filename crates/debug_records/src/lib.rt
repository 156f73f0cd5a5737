//! The records that the compiler leaves for the debugger, and what all of the compiler shares with it: places and
//! variables, spots of a source, and the codes of refusals.
#![tactic(auto)]

mod change;
mod code;
mod log;
mod mode;
mod source;

pub use change::{Change, Kind, PassName, Place, Var};
pub use code::{Code, Letter, codes_in_use};
pub use log::ChangeLog;
pub use mode::Mode;
pub use source::{SourceErr, Spot};
