//! A sink in memory, whose calls fail as they are told.
ghost use Rattle.std.specs.Prelude.{◌≡◌, ◌↔◌, true, IfOk};
ghost use Rattle.outside.specs.Calls.{NextFails};
ghost use Rattle.outside.specs.Counts.{CountsPut};
ghost use Rattle.outside.specs.MemorySink.{after_put, empty_sink};

use crate::numbered_calls::NumberedCalls;
use crate::sink::{PutErr, Sink};
use std::alloc::{AllocError, Global};
use std::marker::Model;

/// A sink in memory. Its pieces are numbered from 1, and those that are listed fail.
#[derive(Drop)]
pub struct MemSink {
    taken: Vec<u8>,
    calls: NumberedCalls,
    faults: u64,
}

impl Model for MemSink {
    ghost use Rattle.outside.specs.MemorySink.{MemorySink};

    ghost Value = { MemorySink };

    ghost view = { λ s. record { bytes = s.taken.items; calls = s.calls; fault_count = s.faults } };
}

impl MemSink {
    /// A sink that took nothing, whose calls of these numbers fail.
    pub fn new(alloc: Global, fails: &[u64]) -> Result<MemSink, AllocError>
        ensures { IfOk result (λ sink. sink ≡ empty_sink fails.now) }
    {
        Ok(MemSink {
            taken: Vec::new(alloc),
            calls: NumberedCalls::new(alloc, fails)?,
            faults: 0,
        })
    }

    /// The bytes that it took, in order.
    pub fn bytes(&self) -> &[u8]
        ensures { result.now ≡ self.now.bytes }
    {
        self.taken.as_slice()
    }
}

impl Sink for MemSink {
    ghost state = { λ s. record {
      fault_count = s.fault_count;
      tells = true;
      taken = s.bytes;
    } };

    fn faults(&self) -> u64 {
        self.faults
    }

    /// Fails exactly where the call's number is listed, and then changes nothing but the counts.
    fn put(&mut self, _alloc: Global, piece: &[u8]) -> Result<(), PutErr>
        ensures fails { (result ≡ Err PutErr.Failed) ↔ NextFails self.old.calls }
        ensures after { self.new ≡ after_put self.old piece.now result }
        ensures count { CountsPut result self.old.fault_count self.new.fault_count }
    {
        if self.calls.next_fails() {
            self.faults = self.faults.saturating_add(1);
            return Err(PutErr::Failed);
        }
        Ok(self.taken.extend_from_slice(piece)?)
    }
}
