//! Standard output as a sink.
ghost use Rattle.std.specs.Prelude.{◌≡◌, ◌≢◌, [], false};
ghost use Rattle.outside.specs.Counts.{CountsPut, count_after_put};

use crate::sink::{PutErr, Sink};
use crate::streams::write_through;
use std::alloc::Global;
use std::io;
use std::marker::Model;

/// The standard output of a runtime as a sink. It tells nothing of what it took.
#[derive(Drop)]
pub struct StdoutSink<R: Print + Drop> {
    rt: R,
    faults: u64,
}

impl<R: Print + Drop> Model for StdoutSink<R> {
    ghost use Rattle.std.specs.Prelude.{ℕ};

    ghost Value = { ℕ };

    ghost view = { λ s. s.faults };
}

impl<R: Print + Drop> StdoutSink<R> {
    /// A sink over the runtime's standard output, of which no call has failed.
    pub fn new(rt: R) -> StdoutSink<R>
        ensures { result ≡ 0 }
    {
        StdoutSink { rt, faults: 0 }
    }
}

impl<R: Print + Drop> Sink for StdoutSink<R> {
    ghost state = { λ s. record {
      fault_count = s;
      tells = false;
      taken = [];
    } };

    fn faults(&self) -> u64 {
        self.faults
    }

    /// Writes the piece through. One that cannot be written whole is `Failed`. It needs no memory.
    fn put(&mut self, _alloc: Global, piece: &[u8]) -> Result<(), PutErr>
        ensures after { self.new ≡ count_after_put self.old result }
        ensures count { CountsPut result self.old self.new }
        ensures no_memory_needed { result ≢ Err PutErr.NoMemory }
    {
        match write_through(&mut io::writer(&self.rt), piece) {
            Ok(()) => Ok(()),
            Err(_) => {
                self.faults = self.faults.saturating_add(1);
                Err(PutErr::Failed)
            }
        }
    }
}
