//! A shelf of named texts, which counts the faults of its loads and of its saves.
ghost use Rattle.std.specs.Prelude.{◌≡◌, ◌≢◌, ◌+◌, ◌<◌, ◌≤◌, ℕ, true, List, length, Some, IfOk, OnOk, OnErr};
ghost use Rattle.outside.specs.Counts.{Counts};
ghost use Rattle.outside.specs.Held.{IsKeptOrCut, Loads};
ghost use Rattle.outside.specs.States.{ShelfState};

use std::alloc::{AllocError, Global};

/// Why a load or a save gave no answer.
#[derive(Clone, Copy, PartialEq, Eq, Debug)]
pub enum ShelfErr {
    /// The outside failed: the name is absent, or it could not be read or written.
    Failed,
    /// Memory was refused.
    NoMemory,
}

impl From<AllocError> for ShelfErr {
    ghost use Rattle.std.specs.Prelude.{◌≡◌};
    ghost use Rattle.outside.specs.declared.shelf.ShelfErr.TheVariants.{NoMemory};

    ghost from_gives = { λ _ error. error ≡ NoMemory };

    fn from(_error: AllocError) -> ShelfErr {
        ShelfErr::NoMemory
    }
}

/// A map from names to bytes, which counts the loads and the saves that failed.
pub trait Shelf {
    /// What is known of it: how many loads and saves failed, whether it tells what its names hold, and what they hold.
    ghost state: { Self → ShelfState };

    /// How many loads have failed. It never falls, and stays once it is the greatest `u64`.
    fn load_faults(&self) -> u64
        ensures { result ≡ (state self.now).load_count };

    /// How many saves have failed. It never falls, and stays once it is the greatest `u64`.
    fn save_faults(&self) -> u64
        ensures { result ≡ (state self.now).save_count };

    /// The first `limit + 1` bytes that `name` holds, or all of them if there are fewer, so that a caller sees a
    /// text that is longer than its limit. An absent name is `Failed`; each `Failed` raises the count of loads.
    fn load(&mut self, alloc: Global, name: &str, limit: u32) -> Result<Vec<u8>, ShelfErr>
        requires { limit < 4294967295 }
        ensures count { Counts result (state self.old).load_count (state self.new).load_count }
        ensures other { (state self.new).save_count ≡ (state self.old).save_count }
        ensures telling { (state self.new).tells ≡ (state self.old).tells }
        ensures same { (n : List ℕ) → (state self.old).tells ≡ true
            → (state self.new).held n ≡ (state self.old).held n }
        ensures value { IfOk result (λ v. (state self.old).tells ≡ true
            → Loads ((state self.old).held name.now) limit v.items) }
        ensures most { IfOk result (λ v. length v.items ≤ limit + 1) };

    /// Makes `name` hold `bytes` in place of what it held. Each `Failed` raises the count of saves; after an error
    /// the name holds what it held before, or the first part of the bytes.
    fn save(&mut self, alloc: Global, name: &str, bytes: &[u8]) -> Result<(), ShelfErr>
        ensures count { Counts result (state self.old).save_count (state self.new).save_count }
        ensures other { (state self.new).load_count ≡ (state self.old).load_count }
        ensures telling { (state self.new).tells ≡ (state self.old).tells }
        ensures others { (n : List ℕ) → n ≢ name.now → (state self.old).tells ≡ true
            → (state self.new).held n ≡ (state self.old).held n }
        ensures ok { OnOk result ((state self.old).tells ≡ true → (state self.new).held name.now ≡ Some bytes.now) }
        ensures err { OnErr result
            ((state self.old).tells ≡ true
            → IsKeptOrCut bytes.now ((state self.old).held name.now) ((state self.new).held name.now)) };
}
