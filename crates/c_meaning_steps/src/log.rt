//! The events of a run, which only clauses read. They take no memory, and the methods do nothing at run time.

ghost use Rattle.std.specs.Prelude.{◌≡◌, [], ◌∷◌, ◌++◌, List};
ghost use base.Fml.{ftrue};
ghost use Rattle.c_meaning_steps.specs.States.{Event, Put};

use std::marker::Model;

/// The events of a run so far, in order.
#[derive(Drop)]
pub struct Log {
    pub ghost events: { List Event },
}

impl Model for Log {
    ghost also_owns = { λ _. ftrue };
}

impl Log {
    /// None so far.
    pub fn new() -> Log
        ensures { result.events ≡ [] }
    {
        Log {}
    }

    /// These events, and that a byte is put out behind them.
    pub fn and_byte(&self, _byte: &u8) -> Log
        ensures { result.events ≡ self.now.events ++ Put _byte.now ∷ [] }
    {
        Log {}
    }
}
