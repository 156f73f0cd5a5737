//! What is told at places.

ghost use Rattle.std.specs.Prelude.{◌≡◌, ◌≢◌, ◌+◌, ◌<◌, ◌≤◌, ℕ, IfOk, List, None, OnOk, Some, [], length, slice_get, true};
ghost use Rattle.graph_core.specs.declared.graph.Scalar as declared-scalar;
ghost use Rattle.graph_core.specs.Graphs.{Logged, graph_view};
ghost use Rattle.graph_core.specs.Paths.{Among};
ghost use Rattle.dead_pass_writes.specs.RemovedChangesTelling.{AreToldOf as AreRemovalsTold};
ghost use Rattle.currency_notes.specs.Homes.{home_in};
ghost use Rattle.currency_shown.specs.declared.found.LastNote as declared-last;
ghost use Rattle.currency_shown.specs.declared.found.Unshown as declared-unshown;
ghost use Rattle.currency_shown.specs.Found.{entries_of};
ghost use Rattle.currency_hiding.specs.Changes.{log_of};
ghost use Rattle.currency_hiding.specs.Found.{HasNoneAt, TellsBy, TellsFor, IsFunction, IsReady, IsSameFunction, IsSameTeller, IsTeller};
ghost use Rattle.currency.specs.Evident.{AreNew, IsHiding, IsHidingIn, IsHidingOn, IsHidingScalar};
ghost use Rattle.currency.specs.Tellable.{CanBeTold, HasNoneBy, IsTellable};
ghost use Rattle.currency.specs.Telling.{AreToldOf, AreToldAll, IsFunctionTold, IsRecipeOf, IsToldOne, told_at};

use crate::telling::{Told, ToldVariable};
use currency_hiding::{Function, Teller};
use currency_shown::{Unshown, not_shown};
use dead_pass_writes::RemovedChanges;
use debug_records::{Change, Place, Var};
use graph_core::{Graph, Scalar};
use graph_homes::Home;
use places::PlaceTable;
use std::alloc::{AllocError, Global};

/// Whether one of these is shown by no recipe.
fn is_hidden_somewhere(unshown: &[Unshown<'_>]) -> bool
    ensures { (u : declared-unshown.Unshown) → Among u unshown.now → u.last ≡ None → result ≡ true }
{
    for one in unshown {
        if one.last.is_none() {
            return true;
        }
    }
    false
}

/// What is told of a scalar that its home does not show at a place, where the questions are on it if it is hidden
/// there.
fn told_of<'a>(one: &Unshown<'a>, teller: &Teller<'_>, function: &Function<'_>) -> Told<'a>
    requires ready { one.now.last ≡ None → IsReady teller.now function.now }
    requires sourced { (l : declared-last.LastNote) → one.now.last ≡ Some l → l.change ≢ None }
    requires some { one.now.last ≡ None → HasNoneAt teller.now.changes teller.now.search function.now one.now.place.0
        → ⊥ }
    ensures recipe { IsRecipeOf result one.now.last }
    ensures hiding { IsHiding (λ c. TellsFor teller.now function.now one.now.place.0 c) result }
{
    match one.last {
        Some(note) => match note.change {
            Some(change) => Told::Recovered {
                recipe: note.recipe,
                change,
            },
            None => unreachable!(),
        },
        None => Told::Hidden(teller.hiding_at(function, one.place)),
    }
}

/// What the functions of a unit are told of with: its changes with those that removed assignments, and the places of
/// its program.
#[derive(Drop)]
pub struct Surroundings<'a, 'b> {
    pub changes: &'b [Change],
    pub removed: &'a RemovedChanges,
    pub places: &'b PlaceTable,
}

/// For each place the variables of which something is told there.
#[derive(Drop)]
pub struct ToldPlaces<'a> {
    by_place: Vec<Vec<ToldVariable<'a>>>,
}

/// The questions are on this scalar from here on, if it is asked.
fn ask(
    alloc: Global,
    teller: &mut Teller<'_>,
    function: &mut Function<'_>,
    is_asked: bool,
    scalar: u32,
    var: Var,
) -> Result<(), AllocError>
    requires teller { IsTeller teller.old }
    requires function { IsFunction function.old }
    requires scalar { scalar < length (graph_view function.old.writers.graph.now).scalars }
    ensures teller { OnOk result (IsSameTeller teller.old teller.new) }
    ensures function { OnOk result (IsSameFunction function.old function.new) }
    ensures ready { OnOk result
        (is_asked ≡ true → IsReady teller.new function.new × (function.new.scalar ≡ scalar)
        × (teller.new.search.flow.var.0 ≡ var.0)) }
{
    if is_asked {
        teller.turn_to(alloc, function, scalar, var)?;
    }
    Ok(())
}

impl<'a> ToldPlaces<'a> {
    /// Nothing is told at so many places.
    pub fn new(alloc: Global, count: usize) -> Result<ToldPlaces<'a>, AllocError>
        ensures none { IfOk result (λ made. (p : ℕ) → told_at made p ≡ []) }
        ensures count { IfOk result (λ made. length made.by_place.items ≡ count) }
    {
        let mut by_place = Vec::new(alloc);
        for _made in 0..count {
            by_place.push(Vec::new(alloc))?;
        }
        Ok(ToldPlaces { by_place })
    }

    /// What is told at a place.
    pub fn at(&self, place: u32) -> &[ToldVariable<'a>]
        requires { place < length self.now.by_place.items }
        ensures { result.now ≡ told_at self.now place }
    {
        &self.by_place[place as usize]
    }

    /// This is told of a variable at a place.
    fn add(&mut self, place: Place, var: Var, told: Told<'a>) -> Result<(), AllocError>
        requires { place.0 < length self.old.by_place.items }
        ensures told { OnOk result (IsToldOne self.old self.new place.0 var told.entry) }
        ensures count { OnOk result (length self.new.by_place.items ≡ length self.old.by_place.items) }
    {
        self.by_place[place.0 as usize].push(ToldVariable { var, told })?;
        Ok(())
    }

    /// What is told of a variable at the places where its home does not show it.
    fn add_entries(
        &mut self,
        teller: &Teller<'_>,
        function: &Function<'_>,
        var: Var,
        unshown: &[Unshown<'a>],
    ) -> Result<(), AllocError>
        requires ready { (u : declared-unshown.Unshown) → Among u unshown.now → u.last ≡ None
            → IsReady teller.now function.now }
        requires can { CanBeTold (λ p. HasNoneAt teller.now.changes teller.now.search function.now p)
            (length self.old.by_place.items) unshown.now }
        ensures told { OnOk result (AreToldOf self.old self.new var unshown.now) }
        ensures hiding { OnOk result
            (AreNew (IsHidingOn (λ p c. TellsFor teller.now function.now p c) var) self.old self.new) }
        ensures count { OnOk result (length self.new.by_place.items ≡ length self.old.by_place.items) }
    {
        for one in unshown {
            let told = told_of(one, teller, function);
            self.add(one.place, var, told)?;
        }
        Ok(())
    }

    /// What is told of a scalar at the places where its home does not show it.
    fn add_scalar(
        &mut self,
        alloc: Global,
        teller: &mut Teller<'_>,
        function: &mut Function<'_>,
        scalar: u32,
        var: Var,
        unshown: &[Unshown<'a>],
    ) -> Result<(), AllocError>
        requires teller { IsTeller teller.old }
        requires function { IsFunction function.old }
        requires scalar { scalar < length (graph_view function.old.writers.graph.now).scalars }
        requires can { CanBeTold (λ p.
            HasNoneBy teller.old function.old.writers scalar var.0 p) (length self.old.by_place.items) unshown.now }
        ensures teller { OnOk result (IsSameTeller teller.old teller.new) }
        ensures function { OnOk result (IsSameFunction function.old function.new) }
        ensures told { OnOk result (AreToldOf self.old self.new var unshown.now) }
        ensures hiding { OnOk result (AreNew (IsHidingOn (λ p c.
            TellsBy teller.old function.old.writers scalar var.0 p c) var) self.old self.new) }
        ensures count { OnOk result (length self.new.by_place.items ≡ length self.old.by_place.items) }
    {
        let is_asked = is_hidden_somewhere(unshown);
        ask(alloc, teller, function, is_asked, scalar, var)?;
        self.add_entries(teller, function, var, unshown)?;
        Ok(())
    }

    /// What is told of each scalar of a function.
    fn add_scalars(
        &mut self,
        alloc: Global,
        teller: &mut Teller<'_>,
        function: &mut Function<'_>,
        scalars: &[Scalar],
        unshown: &[Vec<Unshown<'a>>],
    ) -> Result<(), AllocError>
        requires teller { IsTeller teller.old }
        requires function { IsFunction function.old }
        requires scalars { length scalars.now ≤ length (graph_view function.old.writers.graph.now).scalars }
        requires few { length scalars.now < 4294967296 }
        requires count { length unshown.now ≡ length scalars.now }
        requires can { (x : ℕ) (s : declared-scalar.Scalar) → slice_get scalars.now x ≡ Some s
            → CanBeTold (λ p. HasNoneBy teller.old function.old.writers x s.var.0 p) (length self.old.by_place.items)
            (entries_of unshown.now x) }
        ensures teller { OnOk result (IsSameTeller teller.old teller.new) }
        ensures told { OnOk result (AreToldAll self.old self.new scalars.now unshown.now) }
        ensures hiding { OnOk result
            (AreNew (IsHidingScalar teller.old function.old.writers scalars.now) self.old self.new) }
        ensures count { OnOk result (length self.new.by_place.items ≡ length self.old.by_place.items) }
    {
        for x in 0..scalars.len() {
            let entries = &unshown[x];
            self.add_scalar(alloc, teller, function, x as u32, scalars[x].var, entries)?;
        }
        Ok(())
    }

    /// What is told of the scalars of a function at the places where their homes do not show them.
    pub fn add_function(
        &mut self,
        alloc: Global,
        teller: &mut Teller<'_>,
        unit: &Surroundings<'a, '_>,
        number: u32,
        graph: &'a Graph,
        homes: &'a [Home],
    ) -> Result<(), AllocError>
        requires teller { IsTeller teller.old }
        requires function { IsTellable (log_of teller.old.changes) teller.old.search.flow.table.now homes.now number
            (graph_view graph.now) unit.now.places.now }
        requires removed { AreRemovalsTold (log_of teller.old.changes) unit.now.removed.now }
        requires count { length self.old.by_place.items ≡ length unit.now.places.now.rows.items + 1 }
        ensures teller { OnOk result (IsSameTeller teller.old teller.new) }
        ensures told { OnOk result
            ((log : List Logged) → AreRemovalsTold log unit.now.removed.now
            → IsFunctionTold log homes.now (graph_view graph.now) number unit.now.places.now self.old self.new) }
        ensures hiding { OnOk result
            (AreNew (IsHidingIn (log_of teller.old.changes) teller.old.search.flow.table.now (home_in homes.now)
            number (graph_view graph.now)) self.old self.new) }
        ensures count { OnOk result (length self.new.by_place.items ≡ length self.old.by_place.items) }
    {
        let (changes, removed, places) = (unit.changes, unit.removed, unit.places);
        let unshown = not_shown(alloc, number, graph, homes, changes, removed, places)?;
        let count = places.rows.len() + 1;
        let mut function = Function::new(alloc, number, graph, homes, count)?;
        self.add_scalars(alloc, teller, &mut function, &graph.scalars, &unshown)?;
        Ok(())
    }
}
