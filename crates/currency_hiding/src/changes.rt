//! The changes of each variable.

ghost use Rattle.std.specs.Prelude.{◌≡◌, ◌<◌, ◌≤◌, ◌↔◌, IfOk, IfSome, MatchOption, ℕ, Some, false, slice_get, true};
ghost use Rattle.debug_records.specs.declared.change.Change as declared-change;
ghost use Rattle.debug_records.specs.Change.{letters};
ghost use Rattle.debug_records.specs.Numbers.{AreNumbered};
ghost use Rattle.currency_hiding.specs.Changes.{AreFound, AreListed, IsLastSharing, IsListed, IsNotBefore, IsSharing, hides_as, homes_name};

use currency_writers::{Lists, count_with};
use debug_records::{Change, Kind, Var};
use std::alloc::{AllocError, Global};

/// The pass by whose name the assignment of homes logs that it gave a register to other names too.
const HOMES: &[u8] = b"homes";

/// The changes of a log by their variables.
#[derive(Drop)]
pub struct Changes<'a> {
    pub all: &'a [Change],
    /// For each variable the numbers of its changes, in order.
    pub by_variable: Lists,
}

/// Whether the assignment of homes made a change.
fn is_of_homes(change: &Change) -> bool
    ensures { (result ≡ true) ↔ (letters change.now.pass ≡ homes_name) }
{
    change.pass.letters() == HOMES
}

/// Whether there is a number that is not below another one.
fn is_not_below(found: Option<u32>, number: u32) -> bool
    ensures some { result ≡ true → IsNotBefore number found }
    ensures none { (n : ℕ) → result ≡ false → found ≡ Some n → n ≤ number }
{
    match found {
        Some(first) => number <= first,
        None => false,
    }
}

/// The kind by whose evidence a change of this kind hides a variable.
fn hides_as(kind: Kind) -> Kind
    ensures { result ≡ hides_as kind }
{
    match kind {
        Kind::Removed | Kind::Sunk => Kind::Removed,
        Kind::Moved => Kind::Moved,
        Kind::Reused => Kind::Reused,
        Kind::Replaced => Kind::Replaced,
    }
}

/// How many variables there are, as far as they have changes.
fn variable_count(changes: &[Change]) -> usize
    ensures { (k : ℕ) (d : declared-change.Change) → slice_get changes.now k ≡ Some d → d.var.0 < result }
{
    let mut count = 0usize;
    for change in changes {
        count = count_with(count, change.var.0);
    }
    count
}

impl<'a> Changes<'a> {
    /// These changes, which stand in the order of their numbers from 1 on.
    pub fn new(alloc: Global, all: &'a [Change]) -> Result<Changes<'a>, AllocError>
        requires { AreNumbered all.now }
        ensures listed { IfOk result (λ made. AreListed made) }
        ensures all { IfOk result (λ made. made.all.now ≡ all.now) }
    {
        let mut by_variable = Lists::new(alloc, variable_count(all))?;
        for change in all {
            by_variable.push(change.var.0, change.number)?;
        }
        Ok(Changes { all, by_variable })
    }

    /// The change of a number.
    fn get(&self, number: u32) -> Option<Change>
        ensures some { IfSome result (λ change. IsListed self.now number change) }
        ensures all { (change : declared-change.Change) → IsListed self.now number change → result ≡ Some change }
    {
        if number == 0 || number as usize > self.all.len() {
            return None;
        }
        Some(self.all[number as usize - 1])
    }

    /// The change of a number, if it is of this variable and hides it as one of this kind does.
    fn get_of(&self, number: u32, var: Var, kind: Kind) -> Option<Change>
        ensures some { IfSome result (λ change.
            IsListed self.now number change × (change.var.0 ≡ var.0) × (hides_as change.kind ≡ kind)) }
        ensures all { (change : declared-change.Change) → IsListed self.now number change → change.var.0 ≡ var.0
            → hides_as change.kind ≡ kind → result ≡ Some change }
    {
        let change = self.get(number)?;
        if hides_as(change.kind) != kind {
            return None;
        }
        if change.var.0 != var.0 {
            return None;
        }
        Some(change)
    }

    /// The changes of a variable that hide it as those of this kind do, in order.
    pub fn of(&self, alloc: Global, var: Var, kind: Kind) -> Result<Vec<Change>, AllocError>
        requires { AreListed self.now }
        ensures { IfOk result (λ found. AreFound self.now var.0 kind found.items) }
    {
        let mut found = Vec::new(alloc);
        for number in self.by_variable.get(var.0) {
            match self.get_of(*number, var, kind) {
                Some(change) => found.push(change)?,
                None => {}
            }
        }
        Ok(found)
    }

    /// Whether by the change of a number the assignment of homes gave the register of a variable to other names too.
    #[tactic(auto, using(crate::proofs::ByKind::reused_by))]
    fn is_sharing(&self, number: u32, var: Var) -> bool
        ensures { (result ≡ true) ↔ IsSharing self.now var.0 number }
    {
        match self.get_of(number, var, Kind::Reused) {
            Some(change) => is_of_homes(&change),
            None => false,
        }
    }

    /// The last of two numbers of changes, of which the first one is so already, if there is one, and the other one if
    /// it is of a change by which the assignment of homes gave the register of a variable to other names too.
    fn last_of(&self, found: Option<u32>, number: u32, var: Var) -> Option<u32>
        requires { IfSome found (λ n. IsSharing self.now var.0 n) }
        ensures is { IfSome result (λ n. IsSharing self.now var.0 n) }
        ensures first { (n : ℕ) → found ≡ Some n → IsNotBefore n result }
        ensures second { IsSharing self.now var.0 number → IsNotBefore number result }
    {
        if !self.is_sharing(number, var) {
            return found;
        }
        if is_not_below(found, number) {
            return found;
        }
        Some(number)
    }

    /// The last change by which the assignment of homes gave the register of a variable to other names too.
    pub fn sharing(&self, var: Var) -> Option<u32>
        requires { AreListed self.now }
        ensures { MatchOption result ((n : ℕ) → IsSharing self.now var.0 n → ⊥) (λ n. IsLastSharing self.now var.0 n) }
    {
        let mut found = None;
        for number in self.by_variable.get(var.0) {
            found = self.last_of(found, *number, var);
        }
        found
    }
}
