//! A unit and the homes of its names.

use crate::Home;
use debug_records::Mode;
use graph_core::Unit;

/// The homes of a function's names, by name.
#[derive(Drop)]
pub struct FunctionHomes {
    pub homes: Vec<Home>,
}

/// A unit, with a home for each name of each of its functions.
#[derive(Drop)]
pub struct HomedUnit {
    /// Its log has the changes of the passes, and behind them those by which a scalar's register has other names too.
    pub unit: Unit,
    pub mode: Mode,
    /// By function.
    pub homes: Vec<FunctionHomes>,
}
