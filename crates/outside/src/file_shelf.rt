//! The files of the system as a shelf.
ghost use Rattle.std.specs.Prelude.{◌≡◌, ◌≢◌, ◌+◌, ◌<◌, ◌≤◌, None, IfOk, false, length};
ghost use Rattle.outside.specs.Counts.{Counts, count_after};
ghost use Rattle.outside.specs.FaultCounts.{no_faults};

use crate::shelf::{Shelf, ShelfErr};
use crate::streams::{first_bytes, write_through};
use std::alloc::Global;
use std::marker::Model;
use std::rt::Files;
use std::{fs, io};

/// The files of a runtime as a shelf, whose names are paths. It tells nothing of what they hold.
#[derive(Drop)]
pub struct FileShelf<R: Files + Drop> {
    rt: R,
    load_faults: u64,
    save_faults: u64,
}

impl<R: Files + Drop> Model for FileShelf<R> {
    ghost use Rattle.outside.specs.FaultCounts.{FaultCounts};

    ghost Value = { FaultCounts };

    ghost view = { λ s. record { loads = s.load_faults; saves = s.save_faults } };
}

impl<R: Files + Drop> FileShelf<R> {
    /// A shelf over the runtime's files, of which no call has failed.
    pub fn new(rt: R) -> FileShelf<R>
        ensures { result ≡ no_faults }
    {
        FileShelf {
            rt,
            load_faults: 0,
            save_faults: 0,
        }
    }
}

impl<R: Files + Drop> Shelf for FileShelf<R> {
    ghost state = { λ s. record {
      load_count = s.loads;
      save_count = s.saves;
      tells = false;
      held = λ _. None;
    } };

    fn load_faults(&self) -> u64 {
        self.load_faults
    }

    fn save_faults(&self) -> u64 {
        self.save_faults
    }

    /// Reads the file at the path `name`. A file that cannot be opened or read is `Failed`.
    fn load(&mut self, alloc: Global, name: &str, limit: u32) -> Result<Vec<u8>, ShelfErr>
        requires { limit < 4294967295 }
        ensures after { self.new ≡ record self.old { loads = count_after self.old.loads result } }
        ensures count { Counts result self.old.loads self.new.loads }
        ensures most { IfOk result (λ v. length v.items ≤ limit + 1) }
    {
        let answer = read_file(&self.rt, alloc, name, limit as usize + 1);
        if matches!(answer, Err(ShelfErr::Failed)) {
            self.load_faults = self.load_faults.saturating_add(1);
        }
        answer
    }

    /// Writes the file at the path `name` anew. A file that cannot be made or written is `Failed`. It needs no memory.
    fn save(&mut self, _alloc: Global, name: &str, bytes: &[u8]) -> Result<(), ShelfErr>
        ensures after { self.new ≡ record self.old { saves = count_after self.old.saves result } }
        ensures count { Counts result self.old.saves self.new.saves }
        ensures no_memory_needed { result ≢ Err ShelfErr.NoMemory }
    {
        match write_file(&self.rt, name, bytes) {
            Ok(()) => Ok(()),
            Err(_) => {
                self.save_faults = self.save_faults.saturating_add(1);
                Err(ShelfErr::Failed)
            }
        }
    }
}

/// The first bytes of the file at a path, at most `most`.
fn read_file<R: Files>(rt: &R, alloc: Global, path: &str, most: usize) -> Result<Vec<u8>, ShelfErr>
    ensures { IfOk result (λ v. length v.items ≤ most) }
{
    let Ok(mut file) = fs::open(rt, path) else {
        return Err(ShelfErr::Failed);
    };
    first_bytes(alloc, &mut file, most)
}

/// Makes the file at a path, or empties it, and writes all the bytes to it.
fn write_file<R: Files>(rt: &R, path: &str, bytes: &[u8]) -> io::Result<()> {
    let mut file = fs::create(rt, path)?;
    write_through(&mut file, bytes)
}
