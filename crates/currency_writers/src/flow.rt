//! The flow of a program, and the places that assign a variable.

ghost use Rattle.std.specs.Prelude.{◌≡◌, ◌<◌, ℕ, AllPairs, IfOk, None, OnOk, true};
ghost use Rattle.std.specs.List.Sorted.{IsNonDecreasing};
ghost use Rattle.places.specs.Flow.{IsAssignmentBefore, assigns, can_go};
ghost use Rattle.currency_writers.specs.Lists.{entries_of};
ghost use Rattle.currency_writers.specs.Marks.{mark_at, room_of};
ghost use Rattle.currency_writers.specs.Flooding.{AreWays};
ghost use Rattle.currency_writers.specs.Flow.{AreAssigning, AreFollowing, AreLeast, AreStarts, AreTold, HasRoom, IsBlocked, IsClosed, IsFlow, IsToldFrom};

use crate::lists::{Lists, count_with};
use crate::marks::Marks;
use crate::ways::Ways;
use debug_records::Var;
use places::{Assignment, FlowStep, FlowTable};
use std::alloc::{AllocError, Global};

/// The flow of a program, for questions on one variable after the other.
#[derive(Drop)]
pub struct Flow<'a> {
    pub table: &'a FlowTable,
    /// For each place those to which execution may go from it.
    pub after: Lists,
    /// For each variable the places that assign it.
    pub assigning: Lists,
    /// The variable in question.
    pub var: Var,
    /// The places that assign it.
    pub assigns: Marks<()>,
}

/// For each place those to which execution may go from it. Steps lead from places below a number.
pub fn after_of(alloc: Global, steps: &[FlowStep], places: usize) -> Result<Lists, AllocError>
    requires { (p q : ℕ) → can_go steps.now p q ≡ true → p < places }
    ensures { IfOk result (λ after. AreFollowing steps.now after) }
{
    let mut after = Lists::new(alloc, places)?;
    for step in steps {
        after.push(step.from.0, step.to.0)?;
    }
    Ok(after)
}

/// How many variables there are, as far as they are assigned.
fn variable_count(assignments: &[Assignment]) -> usize
    ensures { (p x : ℕ) → assigns assignments.now p x ≡ true → x < result }
{
    let mut count = 0usize;
    for assignment in assignments {
        count = count_with(count, assignment.var.0);
    }
    count
}

/// For each variable the places that assign it. They are in order, as the assignments are.
pub fn assigning_of(alloc: Global, assignments: &[Assignment]) -> Result<Lists, AllocError>
    requires { AllPairs IsAssignmentBefore assignments.now }
    ensures assigning { IfOk result (λ assigning. AreAssigning assignments.now assigning) }
    ensures ordered { IfOk result (λ assigning. (x : ℕ) → IsNonDecreasing (entries_of assigning x)) }
{
    let mut assigning = Lists::new(alloc, variable_count(assignments))?;
    for assignment in assignments {
        assigning.push(assignment.var.0, assignment.place.0)?;
    }
    Ok(assigning)
}

impl<'a> Flow<'a> {
    /// The questions are on this variable from here on.
    pub fn turn_to(&mut self, var: Var)
        requires { IsFlow self.old }
        ensures flow { IsFlow self.new }
        ensures table { self.new.table.now ≡ self.old.table.now }
        ensures var { self.new.var.0 ≡ var.0 }
        ensures blocked { IsBlocked self.new }
        ensures room { room_of self.new.assigns ≡ room_of self.old.assigns }
    {
        self.var = var;
        self.assigns.forget();
        let places = self.assigning.get(var.0);
        self.assigns.mark(places, ());
    }

    /// Its ways on which nothing assigns the variable between their ends.
    pub fn ways(&self) -> Ways<'_>
        requires { IsFlow self.now }
        ensures ways { AreWays result }
        ensures steps { result.steps.now ≡ self.now.table.now.steps.items }
        ensures blocked { result.blocked.now ≡ self.now.assigns }
    {
        self.past(&self.assigns)
    }

    /// Its ways past places that are marked.
    pub fn past<'w>(&'w self, blocked: &'w Marks<()>) -> Ways<'w>
        requires flow { IsFlow self.now }
        requires room { HasRoom self.now blocked.now }
        ensures ways { AreWays result }
        ensures steps { result.steps.now ≡ self.now.table.now.steps.items }
        ensures blocked { result.blocked.now ≡ blocked.now }
    {
        Ways {
            steps: &self.table.steps,
            after: &self.after,
            blocked,
        }
    }

    /// Each place is marked with this that is not marked yet, and to which execution may come from a place, by one step
    /// at least, with nothing between that assigns the
    /// variable.
    pub fn flood<T: Copy>(
        &self,
        alloc: Global,
        from: u32,
        value: T,
        told: &mut Marks<T>,
    ) -> Result<(), AllocError>
        requires flow { IsFlow self.now }
        requires blocked { IsBlocked self.now }
        requires closed { IsClosed self.now told.old }
        requires room { HasRoom self.now told.old }
        ensures told { OnOk result (IsToldFrom self.now from value told.old told.new) }
        ensures closed { OnOk result (IsClosed self.now told.new) }
        ensures all { OnOk result (AreTold self.now from told.new) }
        ensures room { OnOk result (room_of told.new ≡ room_of told.old) }
    {
        self.ways().flood(alloc, from, value, told)?;
        Ok(())
    }

    /// Each place is marked with the least place that assigns the variable and from which execution may come there, if
    /// there is one.
    pub fn find_starts(&self, alloc: Global, starts: &mut Marks<u32>) -> Result<(), AllocError>
        requires flow { IsFlow self.now }
        requires blocked { IsBlocked self.now }
        requires none { (p : ℕ) → mark_at starts.old p ≡ None }
        requires room { HasRoom self.now starts.old }
        ensures starts { OnOk result (AreStarts self.now starts.new) }
        ensures least { OnOk result (AreLeast self.now starts.new) }
        ensures room { OnOk result (room_of starts.new ≡ room_of starts.old) }
    {
        let from = self.assigning.get(self.var.0);
        self.ways().find_starts(alloc, from, starts)?;
        Ok(())
    }
}
