//! A shelf in memory, whose calls fail as they are told.
ghost use Rattle.std.specs.Prelude.{◌≡◌, ◌≢◌, ◌↔◌, ◌<◌, ℕ, List, true, IsTrue, IfOk, OnOk, OnErr};
ghost use Rattle.std.specs.FinMap.{get};
ghost use Rattle.std.specs.Option.{option_copied};
ghost use Rattle.outside.specs.Calls.{NextFails};
ghost use Rattle.outside.specs.Counts.{Counts, RoseOrStands, raised};
ghost use Rattle.outside.specs.Held.{Loads};
ghost use Rattle.outside.specs.MemoryShelf.{NextLoadFails, after_load, after_save, called, empty_shelf, placed};

use crate::numbered_calls::NumberedCalls;
use crate::shelf::{Shelf, ShelfErr};
use std::alloc::{AllocError, Global};
use std::collections::BTreeMap;
use std::marker::Model;

/// A shelf in memory. Its loads and saves are numbered together, from 1, and those that are listed fail; a load of an
/// absent name fails too.
#[derive(Drop)]
pub struct MemShelf {
    files: BTreeMap<String, Vec<u8>>,
    calls: NumberedCalls,
    load_faults: u64,
    save_faults: u64,
}

impl Model for MemShelf {
    ghost use Rattle.outside.specs.Files.{files_of};
    ghost use Rattle.outside.specs.MemoryShelf.{MemoryShelf, memory_shelf_code};

    ghost Value = { MemoryShelf };

    ghost coded = { memory_shelf_code };

    ghost view = { λ s. record {
      files = files_of s.files;
      calls = s.calls;
      load_count = s.load_faults;
      save_count = s.save_faults;
    } };
}

impl MemShelf {
    /// A shelf that holds nothing, whose calls of these numbers fail.
    pub fn new(alloc: Global, fails: &[u64]) -> Result<MemShelf, AllocError>
        ensures { IfOk result (λ shelf. shelf ≡ empty_shelf fails.now) }
    {
        Ok(MemShelf {
            files: BTreeMap::new(alloc),
            calls: NumberedCalls::new(alloc, fails)?,
            load_faults: 0,
            save_faults: 0,
        })
    }

    /// Makes `name` hold `bytes`. It is no numbered call.
    pub fn place(&mut self, alloc: Global, name: &str, bytes: &[u8]) -> Result<(), AllocError>
        ensures ok { OnOk result (self.new ≡ placed self.old name.now bytes.now) }
        ensures err { OnErr result (self.new ≡ self.old) }
    {
        let key = String::from_str(alloc, name)?;
        let copy = bytes.to_vec(alloc)?;
        self.files.insert(key, copy)?;
        Ok(())
    }

    /// What a name holds, or none where it is absent.
    pub fn held(&self, name: &str) -> Option<&[u8]>
        ensures { option_copied result ≡ get self.now.files name.now }
    {
        match self.files.get(name) {
            None => None,
            Some(bytes) => Some(bytes.as_slice()),
        }
    }

    /// Counts a call, and tells whether it is to fail.
    pub(crate) fn next_fails(&mut self) -> bool
        ensures listed { IsTrue result ↔ NextFails self.old.calls }
        ensures counted { self.new ≡ called self.old }
    {
        self.calls.next_fails()
    }

    /// Counts the fault of a save.
    pub(crate) fn count_failed_save(&mut self)
        ensures counted { self.new ≡ record self.old { save_count = raised self.old.save_count } }
        ensures rises { RoseOrStands self.old.save_count self.new.save_count }
    {
        self.save_faults = self.save_faults.saturating_add(1);
    }
}

impl Shelf for MemShelf {
    ghost state = { λ s. record {
      load_count = s.load_count;
      save_count = s.save_count;
      tells = true;
      held = λ name. get s.files name;
    } };

    fn load_faults(&self) -> u64 {
        self.load_faults
    }

    fn save_faults(&self) -> u64 {
        self.save_faults
    }

    /// Fails exactly where the call's number is listed or the name is absent, and then changes nothing but the counts.
    fn load(&mut self, alloc: Global, name: &str, limit: u32) -> Result<Vec<u8>, ShelfErr>
        requires { limit < 4294967295 }
        ensures fails { (result ≡ Err ShelfErr.Failed) ↔ NextLoadFails self.old name.now }
        ensures after { self.new ≡ after_load self.old result }
        ensures count { Counts result self.old.load_count self.new.load_count }
        ensures value { IfOk result (λ v. Loads (get self.old.files name.now) limit v.items) }
    {
        if self.calls.next_fails() {
            self.load_faults = self.load_faults.saturating_add(1);
            return Err(ShelfErr::Failed);
        }
        let Some(bytes) = self.held(name) else {
            self.load_faults = self.load_faults.saturating_add(1);
            return Err(ShelfErr::Failed);
        };
        let end = bytes.len().min(limit as usize + 1);
        Ok(bytes[..end].to_vec(alloc)?)
    }

    /// Fails exactly where the call's number is listed, and then changes nothing but the counts.
    fn save(&mut self, alloc: Global, name: &str, bytes: &[u8]) -> Result<(), ShelfErr>
        ensures fails { (result ≡ Err ShelfErr.Failed) ↔ NextFails self.old.calls }
        ensures after { self.new ≡ after_save self.old name.now bytes.now result }
        ensures count { Counts result self.old.save_count self.new.save_count }
        ensures others { (n : List ℕ) → n ≢ name.now → get self.new.files n ≡ get self.old.files n }
        ensures ok { OnOk result (get self.new.files name.now ≡ Some bytes.now) }
    {
        if self.calls.next_fails() {
            self.save_faults = self.save_faults.saturating_add(1);
            return Err(ShelfErr::Failed);
        }
        Ok(self.place(alloc, name, bytes)?)
    }
}
