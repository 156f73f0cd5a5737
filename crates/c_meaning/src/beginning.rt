//! A place that is begun, and the events with its stop, as proofs know them.

ghost use Rattle.std.specs.Prelude.{◌≡◌, ◌++◌, ◌∷◌, []};
ghost use Rattle.c_meaning.specs.BeginningViews.{stop_of};

use crate::activation::Activation;
use c_meaning_steps::Log;
use c_meaning_values::Object;

/// A place that is begun.
#[derive(Clone, Copy)]
pub struct Beginning<'a> {
    pub here: &'a Activation<'a>,
    /// The position of the place.
    pub at: u32,
    pub memory: &'a [Object],
}

/// These events, and behind them the stop with which a place is begun.
pub fn with_stop(log: &Log, _beginning: &Beginning<'_>) -> Log
    ensures { result.events ≡ log.now.events ++ stop_of _beginning.now ∷ [] }
{
    Log {}
}
