//! Ways through the flow of a program that pass no blocked place between their ends.

ghost use Rattle.std.specs.Prelude.{◌≡◌, ◌≢◌, ◌<◌, ℕ, All, IfOk, None, OnOk};
ghost use Rattle.std.specs.List.Sorted.{IsNonDecreasing};
ghost use Rattle.currency_writers.specs.Marks.{mark_at, room_of};
ghost use Rattle.currency_writers.specs.Flooding.{AreLeastOf, AreMoreBefore, AreNextReached, AreReached, AreStartsOf, AreWays, HasRoomFor, IsBefore, IsReachedFrom, IsShut, LeadsTo};

use crate::lists::Lists;
use crate::marks::Marks;
use places::FlowStep;
use std::alloc::{AllocError, Global};

/// The steps of a flow, and the places that no way passes between its ends.
#[derive(Clone, Copy)]
pub struct Ways<'w> {
    pub steps: &'w [FlowStep],
    /// For each place those to which a step leads from it.
    pub after: &'w Lists,
    pub blocked: &'w Marks<()>,
}

impl Ways<'_> {
    /// A place to which a way leads is marked with this, if it is not marked yet. It is gone on from later, if it is
    /// not blocked.
    fn come_to<T: Copy>(
        self,
        from: u32,
        place: u32,
        value: T,
        told: &mut Marks<T>,
        ahead: &mut Vec<u32>,
    ) -> Result<(), AllocError>
        requires comes { LeadsTo self from place }
        requires room { place < room_of told.old }
        requires ahead { All (λ q. IsBefore self from q) ahead.old.items }
        ensures told { OnOk result (IsReachedFrom self.entry from value told.old told.new) }
        ensures ahead { OnOk result (All (λ q. IsBefore self.entry from q) ahead.new.items) }
        ensures more { OnOk result (AreMoreBefore self.entry told.old told.new ahead.old.items ahead.new.items) }
        ensures there { OnOk result (mark_at told.new place ≢ None) }
        ensures room { OnOk result (room_of told.new ≡ room_of told.old) }
    {
        if told.has(place) {
            return Ok(());
        }
        told.put(place, value);
        if self.blocked.has(place) {
            return Ok(());
        }
        ahead.push(place)?;
        Ok(())
    }

    /// The places to which a step leads from one are marked with this, if they are not marked yet. Those of them that
    /// are not blocked are gone on from later.
    fn go_on<T: Copy>(
        self,
        from: u32,
        next: u32,
        value: T,
        told: &mut Marks<T>,
        ahead: &mut Vec<u32>,
    ) -> Result<(), AllocError>
        requires ways { AreWays self }
        requires next { IsBefore self from next }
        requires room { HasRoomFor self told.old }
        requires ahead { All (λ q. IsBefore self from q) ahead.old.items }
        ensures told { OnOk result (IsReachedFrom self.entry from value told.old told.new) }
        ensures ahead { OnOk result (All (λ q. IsBefore self.entry from q) ahead.new.items) }
        ensures more { OnOk result (AreMoreBefore self.entry told.old told.new ahead.old.items ahead.new.items) }
        ensures next { OnOk result (AreNextReached self.entry next told.new) }
        ensures room { OnOk result (room_of told.new ≡ room_of told.old) }
    {
        for place in self.after.get(next) {
            self.come_to(from, *place, value, told, ahead)?;
        }
        Ok(())
    }

    /// Each place is marked with this that is not marked yet, and to which a way leads from a place.
    pub fn flood<T: Copy>(
        self,
        alloc: Global,
        from: u32,
        value: T,
        told: &mut Marks<T>,
    ) -> Result<(), AllocError>
        requires ways { AreWays self }
        requires shut { IsShut self told.old }
        requires room { HasRoomFor self told.old }
        ensures told { OnOk result (IsReachedFrom self.entry from value told.old told.new) }
        ensures shut { OnOk result (IsShut self.entry told.new) }
        ensures all { OnOk result (AreReached self.entry from told.new) }
        ensures room { OnOk result (room_of told.new ≡ room_of told.old) }
    {
        let mut ahead = Vec::new(alloc);
        ahead.push(from)?;
        let mut at = 0usize;
        while at < ahead.len() {
            let next = ahead[at];
            self.go_on(from, next, value, told, &mut ahead)?;
            at += 1;
        }
        Ok(())
    }

    /// Each place is marked with the least of these from which a way leads there, if there is one. They ascend.
    pub fn find_starts(
        self,
        alloc: Global,
        from: &[u32],
        starts: &mut Marks<u32>,
    ) -> Result<(), AllocError>
        requires ways { AreWays self }
        requires ascend { IsNonDecreasing from.now }
        requires none { (p : ℕ) → mark_at starts.old p ≡ None }
        requires room { HasRoomFor self starts.old }
        ensures starts { OnOk result (AreStartsOf self.entry from.now starts.new) }
        ensures least { OnOk result (AreLeastOf self.entry from.now starts.new) }
        ensures room { OnOk result (room_of starts.new ≡ room_of starts.old) }
    {
        for place in from {
            self.flood(alloc, *place, *place, starts)?;
        }
        Ok(())
    }
}
