//! Cases of changes.

ghost use Rattle.std.specs.Prelude.{◌≡◌, ◌<◌, ◌^◌, ◌++◌, OnOk, length};
ghost use Rattle.debug_records.specs.Change.{changes};
ghost use Rattle.std.specs.List.Sorted.{IsPermutation};
ghost use Rattle.pass_law.specs.Cases.{logged};
ghost use Rattle.pass_law.specs.Changes.{AreInOrder};

use debug_records::{ChangeLog, Kind, PassName, Place, Var};
use std::alloc::AllocError;

/// A case in which a pass changes something. In order cases come by their places, and those of a place as they stand in
/// the graph.
#[derive(Clone, Copy, PartialEq, Eq, PartialOrd, Ord)]
pub struct Case {
    pub place: Place,
    pub block: usize,
    /// How many instructions stand before it in the block.
    pub index: usize,
    /// Which of the names that are read there it concerns, by number; 0 where it is no read.
    pub operand: usize,
    /// The variable that it concerns.
    pub var: Var,
}

/// Puts the cases in order, and appends a change for each to the log.
pub fn log_cases(
    log: &mut ChangeLog,
    pass: PassName,
    kind: Kind,
    cases: &mut [Case],
) -> Result<(), AllocError>
    requires room { length (changes log.old) < 2 ^ 31 }
    requires few { length cases.old < 2 ^ 31 }
    ensures logged { OnOk result (changes log.new ≡ changes log.old
        ++ logged pass kind (length (changes log.old)) cases.new) }
    ensures same { OnOk result (IsPermutation cases.old cases.new) }
    ensures in_order { OnOk result (AreInOrder cases.new) }
{
    cases.sort_unstable();
    for case in &*cases {
        log.push(pass, kind, case.place, case.var)?;
    }
    Ok(())
}
