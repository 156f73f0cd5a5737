//! A sink that keeps nothing.
ghost use Rattle.std.specs.Prelude.{[], false, IsOk};

use crate::sink::{PutErr, Sink};
use std::alloc::Global;

/// A sink that takes every piece and keeps none. It never fails, and does not tell what it took.
#[derive(Clone, Copy, Default, PartialEq, Eq)]
pub struct QuietSink;

impl Sink for QuietSink {
    ghost state = { λ _. record {
      fault_count = 0;
      tells = false;
      taken = [];
    } };

    fn faults(&self) -> u64 {
        0
    }

    /// Takes the piece. It is never refused.
    fn put(&mut self, _alloc: Global, _piece: &[u8]) -> Result<(), PutErr>
        ensures { IsOk result }
    {
        Ok(())
    }
}
