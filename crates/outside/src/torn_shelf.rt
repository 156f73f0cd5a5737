//! A shelf in memory, whose failing saves leave the first bytes of what was to be saved.
ghost use Rattle.std.specs.Prelude.{◌≡◌, ◌≢◌, ◌↔◌, ◌<◌, ℕ, List, true, take, IfOk, OnOk, OnErr};
ghost use Rattle.std.specs.FinMap.{get};
ghost use Rattle.std.specs.Option.{option_copied};
ghost use Rattle.outside.specs.Calls.{NextFails};
ghost use Rattle.outside.specs.Counts.{Counts};
ghost use Rattle.outside.specs.Held.{IsKeptOrCut, Loads};
ghost use Rattle.outside.specs.MemoryShelf.{NextLoadFails, after_load, empty_shelf, placed};
ghost use Rattle.outside.specs.TornMemoryShelf.{after_torn_save};

use crate::memory_shelf::MemShelf;
use crate::shelf::{Shelf, ShelfErr};
use std::alloc::{AllocError, Global};
use std::marker::Model;

/// A shelf in memory as a `MemShelf`, but for its saves that fail: each of these leaves the first bytes under its name,
/// as a system does that fails in the middle of a write.
#[derive(Drop)]
pub struct TornShelf {
    shelf: MemShelf,
    keep: u32,
}

impl Model for TornShelf {
    ghost use Rattle.outside.specs.TornMemoryShelf.{TornMemoryShelf, torn_shelf_code};

    ghost Value = { TornMemoryShelf };

    ghost coded = { torn_shelf_code };

    ghost view = { λ s. record { shelf = s.shelf; keep = s.keep } };
}

impl TornShelf {
    /// A shelf that holds nothing, whose calls of these numbers fail; a save that does leaves the first `keep` bytes.
    pub fn new(alloc: Global, fails: &[u64], keep: u32) -> Result<TornShelf, AllocError>
        ensures { IfOk result (λ torn. torn ≡ record { shelf = empty_shelf fails.now; keep = keep }) }
    {
        let shelf = MemShelf::new(alloc, fails)?;
        Ok(TornShelf { shelf, keep })
    }

    /// Makes `name` hold `bytes`. It is no numbered call.
    pub fn place(&mut self, alloc: Global, name: &str, bytes: &[u8]) -> Result<(), AllocError>
        ensures ok { OnOk result (self.new ≡ record self.old { shelf = placed self.old.shelf name.now bytes.now }) }
        ensures err { OnErr result (self.new ≡ self.old) }
    {
        self.shelf.place(alloc, name, bytes)
    }

    /// What a name holds, or none where it is absent.
    pub fn held(&self, name: &str) -> Option<&[u8]>
        ensures { option_copied result ≡ get self.now.shelf.files name.now }
    {
        self.shelf.held(name)
    }
}

impl Shelf for TornShelf {
    ghost state = { λ s. record {
      load_count = s.shelf.load_count;
      save_count = s.shelf.save_count;
      tells = true;
      held = λ name. get s.shelf.files name;
    } };

    fn load_faults(&self) -> u64 {
        self.shelf.load_faults()
    }

    fn save_faults(&self) -> u64 {
        self.shelf.save_faults()
    }

    /// Fails exactly where the call's number is listed or the name is absent, and then changes nothing but the counts.
    fn load(&mut self, alloc: Global, name: &str, limit: u32) -> Result<Vec<u8>, ShelfErr>
        requires { limit < 4294967295 }
        ensures fails { (result ≡ Err ShelfErr.Failed) ↔ NextLoadFails self.old.shelf name.now }
        ensures after { self.new ≡ record self.old { shelf = after_load self.old.shelf result } }
        ensures count { Counts result self.old.shelf.load_count self.new.shelf.load_count }
        ensures value { IfOk result (λ v. Loads (get self.old.shelf.files name.now) limit v.items) }
    {
        self.shelf.load(alloc, name, limit)
    }

    /// Fails exactly where the call's number is listed, unless memory for the first bytes is refused, and has then left
    /// these under the name. One that wants memory changes nothing but the number of calls.
    fn save(&mut self, alloc: Global, name: &str, bytes: &[u8]) -> Result<(), ShelfErr>
        ensures fails { (result ≡ Err ShelfErr.Failed)
            ↔ (NextFails self.old.shelf.calls × (result ≢ Err ShelfErr.NoMemory)) }
        ensures after { self.new ≡ after_torn_save self.old name.now bytes.now result }
        ensures count { Counts result self.old.shelf.save_count self.new.shelf.save_count }
        ensures others { (n : List ℕ) → n ≢ name.now → get self.new.shelf.files n ≡ get self.old.shelf.files n }
        ensures ok { OnOk result (get self.new.shelf.files name.now ≡ Some bytes.now) }
        ensures err { OnErr result
            (IsKeptOrCut bytes.now (get self.old.shelf.files name.now) (get self.new.shelf.files name.now)) }
        ensures torn { result ≡ Err ShelfErr.Failed
            → get self.new.shelf.files name.now ≡ Some (take self.old.keep bytes.now) }
    {
        if !self.shelf.next_fails() {
            return Ok(self.shelf.place(alloc, name, bytes)?);
        }
        let end = bytes.len().min(self.keep as usize);
        self.shelf.place(alloc, name, &bytes[..end])?;
        self.shelf.count_failed_save();
        Err(ShelfErr::Failed)
    }
}
