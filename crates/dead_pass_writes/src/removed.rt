//! The changes of a log by which assignments went.

ghost use Rattle.std.specs.Prelude.{◌≡◌, ◌&&◌, ◌==◌, ◌+◌, ◌<◌, ◌^◌, ℕ, IfOk, IfSome, OnOk, None, List, length, map};
ghost use Rattle.debug_records.specs.Change.{is_taken};
ghost use Rattle.graph_core.specs.Graphs.{Logged, logged};
ghost use Rattle.dead_pass_writes.specs.Removals.{IsFirstRemoval, IsLastRemoval, IsRemoval};
ghost use Rattle.dead_pass_writes.specs.RemovedChangesTelling.{AreToldOf, first_with, told, with_removal};

use debug_records::{Change, Place, Var};
use std::alloc::{AllocError, Global};
use std::collections::BTreeMap;

/// The first and the last number of the changes by which assignments of a variable in a place went.
#[derive(Clone, Copy)]
pub struct Removals {
    pub first: u32,
    pub last: u32,
}

/// The changes by which assignments went, for each place and variable.
#[derive(Drop)]
pub struct RemovedChanges {
    all: BTreeMap<(u32, u32), Removals>,
}

impl RemovedChanges {
    /// The number of the first change by which an assignment of a variable in a place went, if this one is behind the
    /// others.
    fn first_with(&self, place: u32, var: u32, number: u32) -> u32
        ensures { result ≡ first_with (told self.now place var) number }
    {
        match self.all.get(&(place, var)) {
            Some(before) => before.first,
            None => number,
        }
    }

    /// An assignment of a variable in a place went by the change of a number.
    fn add(&mut self, place: u32, var: u32, number: u32) -> Result<(), AllocError>
        ensures { OnOk result
            ((p v : ℕ) → told self.new p v ≡ with_removal (place == p && var == v) number (told self.old p v)) }
    {
        let first = self.first_with(place, var, number);
        self.all.insert(
            (place, var),
            Removals {
                first,
                last: number,
            },
        )?;
        Ok(())
    }

    /// The change of a number may be one by which an assignment went.
    fn add_change(&mut self, change: &Change, number: u32) -> Result<(), AllocError>
        ensures { OnOk result
            ((p v : ℕ) → told self.new p v ≡ with_removal
            (is_taken change.now.kind && (change.now.place.0 == p && change.now.var.0 == v)) number
            (told self.old p v)) }
    {
        if change.kind.is_taken() {
            self.add(change.place.0, change.var.0, number)?;
        }
        Ok(())
    }

    /// Those among these changes.
    pub fn new(alloc: Global, changes: &[Change]) -> Result<RemovedChanges, AllocError>
        requires few { length changes.now + 1 < 2 ^ 32 }
        ensures { IfOk result (λ removed. AreToldOf (map logged changes.now) removed) }
    {
        let mut removed = RemovedChanges {
            all: BTreeMap::new(alloc),
        };
        let mut number = 0u32;
        let mut ahead = changes;
        while let [change, rest @ ..] = ahead {
            number += 1;
            removed.add_change(change, number)?;
            ahead = rest;
        }
        Ok(removed)
    }

    /// The number of the first change by which an assignment of a variable in a place went.
    pub fn first(&self, place: Place, var: Var) -> Option<u32>
        ensures first { (log : List Logged) → AreToldOf log self.now
            → IfSome result (λ number. IsFirstRemoval log place.0 var.0 number) }
        ensures none { (log : List Logged) → AreToldOf log self.now → result ≡ None → (number : ℕ)
            → IsRemoval log place.0 var.0 number → ⊥ }
    {
        match self.all.get(&(place.0, var.0)) {
            Some(removals) => Some(removals.first),
            None => None,
        }
    }

    /// The number of the last change by which an assignment of a variable in a place went.
    pub fn last(&self, place: Place, var: Var) -> Option<u32>
        ensures last { (log : List Logged) → AreToldOf log self.now
            → IfSome result (λ number. IsLastRemoval log place.0 var.0 number) }
        ensures none { (log : List Logged) → AreToldOf log self.now → result ≡ None → (number : ℕ)
            → IsRemoval log place.0 var.0 number → ⊥ }
    {
        match self.all.get(&(place.0, var.0)) {
            Some(removals) => Some(removals.last),
            None => None,
        }
    }
}
