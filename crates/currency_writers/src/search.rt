//! Where execution may come from to a place with nothing on its way that assigns a variable.

ghost use Rattle.std.specs.Prelude.{◌≡◌, ◌↔◌, ℕ, Contains, IfOk, MatchOption, OnOk, true};
ghost use Rattle.std.specs.List.Sorted.{IsNonDecreasing};
ghost use Rattle.currency_writers.specs.Flooding.{AreWays};
ghost use Rattle.currency_writers.specs.Flow.{AreTold, HasRoom, IsClosed, IsFlowOfPlaces, IsToldFrom, assigned};
ghost use Rattle.currency_writers.specs.Marks.{room_of};
ghost use Rattle.currency_writers.specs.Starts.{HasNoStart, IsLeastStartBy, IsSearch, IsTurned};

use crate::flow::{Flow, after_of, assigning_of};
use crate::marks::Marks;
use crate::ways::Ways;
use debug_records::Var;
use places::FlowTable;
use std::alloc::{AllocError, Global};

/// The flow of a program, for questions on one variable after the other.
#[derive(Drop)]
pub struct Search<'a> {
    flow: Flow<'a>,
    /// For each place the least one that assigns the variable and from which execution may come there, by at least one
    /// step, with nothing between that assigns it.
    starts: Marks<u32>,
}

impl<'a> Search<'a> {
    /// The flow of a program with places below a number.
    pub fn new(alloc: Global, table: &'a FlowTable, places: usize) -> Result<Search<'a>, AllocError>
        requires { IsFlowOfPlaces table.now places }
        ensures search { IfOk result (λ made. IsSearch made) }
        ensures table { IfOk result (λ made. made.flow.table.now ≡ table.now) }
        ensures room { IfOk result (λ made. room_of made.flow.assigns ≡ places) }
    {
        let after = after_of(alloc, &table.steps, places)?;
        let assigning = assigning_of(alloc, &table.assignments)?;
        let flow = Flow {
            table,
            after,
            assigning,
            var: Var(0),
            assigns: Marks::new(alloc, places, ())?,
        };
        let starts = Marks::new(alloc, places, 0)?;
        Ok(Search { flow, starts })
    }

    /// The questions are on this variable from here on.
    pub fn turn_to(&mut self, alloc: Global, var: Var) -> Result<(), AllocError>
        requires { IsSearch self.old }
        ensures turned { OnOk result (IsTurned self.new) }
        ensures table { OnOk result (self.new.flow.table.now ≡ self.old.flow.table.now) }
        ensures var { OnOk result (self.new.flow.var.0 ≡ var.0) }
        ensures room { OnOk result (room_of self.new.flow.assigns ≡ room_of self.old.flow.assigns) }
    {
        self.starts.forget();
        self.flow.turn_to(var);
        self.flow.find_starts(alloc, &mut self.starts)?;
        Ok(())
    }

    /// The variable in question.
    pub fn var(&self) -> Var
        ensures { result.0 ≡ self.now.flow.var.0 }
    {
        self.flow.var
    }

    /// The places that assign the variable, in order.
    pub fn assigning(&self) -> &[u32]
        requires { IsTurned self.now }
        ensures places { (p : ℕ) → Contains result.now p ↔ (assigned self.now.flow p ≡ true) }
        ensures ascend { IsNonDecreasing result.now }
    {
        self.flow.assigning.get(self.flow.var.0)
    }

    /// The ways through the flow past places that are marked.
    pub fn past<'w>(&'w self, blocked: &'w Marks<()>) -> Ways<'w>
        requires turned { IsTurned self.now }
        requires room { HasRoom self.now.flow blocked.now }
        ensures ways { AreWays result }
        ensures steps { result.steps.now ≡ self.now.flow.table.now.steps.items }
        ensures blocked { result.blocked.now ≡ blocked.now }
    {
        self.flow.past(blocked)
    }

    /// Whether a place assigns the variable.
    pub fn assigns(&self, place: u32) -> bool
        requires { IsTurned self.now }
        ensures { result ≡ assigned self.now.flow place }
    {
        self.flow.assigns.has(place)
    }

    /// The least place that assigns the variable and from which a way leads by this one, if there is one. From one that
    /// assigns the variable it is that itself.
    pub fn start_of(&self, place: u32) -> Option<u32>
        requires { IsTurned self.now }
        ensures { MatchOption result (HasNoStart self.now place) (λ start. IsLeastStartBy self.now start place) }
    {
        if self.assigns(place) {
            return Some(place);
        }
        self.starts.at(place)
    }

    /// Marks with this each place that is not marked yet, and to which execution may come from a place, by one step at
    /// least, with nothing between that assigns the
    /// variable.
    pub fn tell_from<T: Copy>(
        &self,
        alloc: Global,
        place: u32,
        value: T,
        told: &mut Marks<T>,
    ) -> Result<(), AllocError>
        requires turned { IsTurned self.now }
        requires closed { IsClosed self.now.flow told.old }
        requires room { HasRoom self.now.flow told.old }
        ensures told { OnOk result (IsToldFrom self.now.flow place value told.old told.new) }
        ensures closed { OnOk result (IsClosed self.now.flow told.new) }
        ensures all { OnOk result (AreTold self.now.flow place told.new) }
        ensures room { OnOk result (room_of told.new ≡ room_of told.old) }
    {
        self.flow.flood(alloc, place, value, told)
    }
}
