//! The changes of all passes, numbered.

ghost use Rattle.debug_records.specs.Numbers.{AreNumbered};

use crate::change::{Change, Kind, PassName, Place, Var};
use std::alloc::{AllocError, Global};

/// The changes of all passes in order, numbered from 1.
#[derive(Drop)]
pub struct ChangeLog {
    changes: Vec<Change>,
    pub ghost numbered: { AreNumbered changes.items },
}

impl ChangeLog {
    ghost use Rattle.std.specs.Prelude.{◌≡◌, ◌<◌, ◌+◌, ◌++◌, [], ◌∷◌, IfOk, OnErr, length};
    ghost use Rattle.debug_records.specs.Change.{changes};

    /// A log of no changes. It takes no memory.
    pub fn new(alloc: Global) -> ChangeLog
        ensures { changes result ≡ [] }
    {
        ChangeLog {
            changes: Vec::new(alloc),
        }
    }

    /// Appends a change, and tells its number. `AllocError`, and the log as it was, where memory was refused.
    pub fn push(
        &mut self,
        pass: PassName,
        kind: Kind,
        place: Place,
        var: Var,
    ) -> Result<u32, AllocError>
        requires { length (changes self.old) < 4294967295 }
        ensures number { IfOk result (λ n. n ≡ length (changes self.old) + 1) }
        ensures appended { IfOk result (λ n.
            changes self.new ≡ changes self.old ++ record
            { number = n; pass = pass; kind = kind; place = place; var = var } ∷ []) }
        ensures kept { OnErr result (changes self.new ≡ changes self.old) }
    {
        let number = self.changes.len() as u32 + 1;
        self.changes.push(Change {
            number,
            pass,
            kind,
            place,
            var,
        })?;
        Ok(number)
    }

    /// A log of the same changes. `AllocError` where memory was refused.
    pub fn duplicate(&self, alloc: Global) -> Result<ChangeLog, AllocError>
        ensures { IfOk result (λ log. changes log ≡ changes self.now) }
    {
        let changes = Vec::from_slice(alloc, &self.changes)?;
        Ok(ChangeLog { changes })
    }

    /// The changes in order.
    pub fn changes(&self) -> &[Change]
        ensures { result.now ≡ changes self.entry.now }
    {
        self.changes.as_slice()
    }
}
