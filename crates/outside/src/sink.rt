//! A sink of bytes, which counts its faults.
ghost use Rattle.std.specs.Prelude.{◌≡◌, true, ◌++◌, OnOk, OnErr};
ghost use Rattle.outside.specs.Counts.{CountsPut};
ghost use Rattle.outside.specs.States.{SinkState};
ghost use Rattle.outside.specs.Taken.{TakesPart};

use std::alloc::{AllocError, Global};

/// Why a piece was not taken whole.
#[derive(Clone, Copy, PartialEq, Eq, Debug)]
pub enum PutErr {
    /// The outside failed.
    Failed,
    /// Memory was refused.
    NoMemory,
}

impl From<AllocError> for PutErr {
    ghost use Rattle.std.specs.Prelude.{◌≡◌};
    ghost use Rattle.outside.specs.declared.sink.PutErr.TheVariants.{NoMemory};

    ghost from_gives = { λ _ error. error ≡ NoMemory };

    fn from(_error: AllocError) -> PutErr {
        PutErr::NoMemory
    }
}

/// What takes bytes one piece after another, and counts the pieces at which it failed.
pub trait Sink {
    /// What is known of it: how many pieces failed, whether it tells what it took, and what it took.
    ghost state: { Self → SinkState };

    /// How many pieces have failed. It never falls, and stays once it is the greatest `u64`.
    fn faults(&self) -> u64
        ensures { result ≡ (state self.now).fault_count };

    /// Takes the piece. Each `Failed` raises the count; after an error the first part of the piece was taken,
    /// perhaps none of it.
    fn put(&mut self, alloc: Global, piece: &[u8]) -> Result<(), PutErr>
        ensures count { CountsPut result (state self.old).fault_count (state self.new).fault_count }
        ensures telling { (state self.new).tells ≡ (state self.old).tells }
        ensures ok { OnOk result ((state self.old).tells ≡ true
            → (state self.new).taken ≡ (state self.old).taken ++ piece.now) }
        ensures err { OnErr result ((state self.old).tells ≡ true
            → TakesPart piece.now (state self.old).taken (state self.new).taken) };
}
