//! The verdicts on all variables at all places.

ghost use Rattle.std.specs.Prelude.{◌≡◌, ◌<◌, ◌≤◌, ◌+◌, ◌++◌, ℕ, IfOk, MatchOption, OnOk, Some, get_or, length, map, slice_get};
ghost use Rattle.graph_core.specs.declared.graph.Scalar as declared-scalar;
ghost use Rattle.graph_core.specs.Graphs.{Graph};
ghost use Rattle.graph_core.specs.Paths.{Among};
ghost use Rattle.graph_core.specs.WellMarked.{AreWellMarked, IsVariable};
ghost use Rattle.graph_homes.specs.Homed.{HaveHomes, homed_view};
ghost use Rattle.dead_pass_writes.specs.RemovedChangesTelling.{AreToldOf as AreRemovalsTold};
ghost use Rattle.currency.specs.Telling.{AreBelow, AreRowsTold, AreSlotted, AreTold, IsNoneTold, IsToldOf, IsVerdictOn, told_at};
ghost use Rattle.currency.specs.Named.{AreNamed};
ghost use Rattle.currency.specs.Premises.{AreSharesLogged, IsFlowOf, IsTableOf};
ghost use Rattle.currency.specs.Sound.{AreApart, AreHidden, AreHome, AreLeast, AreOnly, AreReached, AreRecovered, AreSo};
ghost use Rattle.currency.specs.Written.{AreWritten};
ghost use Rattle.currency.specs.Evident.{AreEvident, AreToldEvident};
ghost use Rattle.currency.specs.Visible.{sight, sights_at, sights_from};

use crate::telling::ToldVariable;
use crate::told::{Surroundings, ToldPlaces};
use crate::verdict::{PlaceVerdict, Verdict};
use currency_hiding::Teller;
use dead_pass_writes::RemovedChanges;
use debug_records::{Place, Var};
use graph_core::Scalar;
use graph_homes::HomedUnit;
use places::{FlowTable, PlaceTable};
use std::alloc::{AllocError, Global};

/// Puts for each variable of which something is told at a place the number of what is told, from 1 on.
fn put_slots(told: &[ToldVariable<'_>], slots: &mut [usize])
    requires { AreBelow (length slots.old) told.now }
    ensures { AreSlotted told.now slots.new }
{
    for k in 0..told.len() {
        let var = told[k].var;
        slots[var.0 as usize] = k + 1;
    }
}

/// The number in the slot of a variable; 0 where it has none.
fn slot_of(slots: &[usize], var: Var) -> usize
    ensures { result ≡ get_or slots.now var.0 0 }
{
    match slots.get(var.0 as usize) {
        Some(number) => *number,
        None => 0,
    }
}

/// What is told of a variable at a place, if something is.
fn told_on<'a>(told: &[ToldVariable<'a>], slots: &[usize], var: Var) -> Option<ToldVariable<'a>>
    requires slots { AreSlotted told.now slots.now }
    ensures { MatchOption result (IsNoneTold told.now var) (λ one. IsToldOf told.now var one) }
{
    let number = slot_of(slots, var);
    if number == 0 || number > told.len() {
        return None;
    }
    let one = told[number - 1];
    if one.var.0 == var.0 { Some(one) } else { None }
}

/// The verdict on a variable, of which this is told, or nothing.
fn verdict_on(alloc: Global, told: Option<ToldVariable<'_>>) -> Result<Verdict, AllocError>
    ensures { IfOk result (λ v. IsVerdictOn told.entry v) }
{
    match told {
        Some(one) => one.told.verdict(alloc),
        None => Ok(Verdict::Home),
    }
}

/// Appends the verdicts on the variables that are visible at a place, at which this is told.
fn push_place(
    alloc: Global,
    place: u32,
    visible: &[Var],
    told: &[ToldVariable<'_>],
    slots: &mut [usize],
    rows: &mut Vec<PlaceVerdict>,
) -> Result<(), AllocError>
    requires { AreBelow (length slots.old) told.now }
    ensures sights { OnOk result (map sight rows.new.items ≡ map sight rows.old.items ++ sights_at place visible.now) }
    ensures told { OnOk result (AreTold told.now place visible.now rows.old.items rows.new.items) }
{
    put_slots(told, slots);
    for var in visible {
        let verdict = verdict_on(alloc, told_on(told, slots, *var))?;
        rows.push(PlaceVerdict {
            place: Place(place),
            var: *var,
            verdict,
        })?;
    }
    Ok(())
}

/// The verdicts at all places, with a slot for each variable of which something is told.
fn rows_by(
    alloc: Global,
    places: &PlaceTable,
    told: &ToldPlaces<'_>,
    slots: &mut [usize],
) -> Result<Vec<PlaceVerdict>, AllocError>
    requires few { length places.now.rows.items < 4294967295 }
    requires count { length told.now.by_place.items ≡ length places.now.rows.items + 1 }
    requires below { (p : ℕ) → AreBelow (length slots.old) (told_at told.now p) }
    ensures sights { IfOk result (λ v. map sight v.items ≡ sights_from 1 places.now.rows.items) }
    ensures told { IfOk result (λ v. AreRowsTold places.now told.now v.items) }
{
    let mut rows = Vec::new(alloc);
    let mut place = 1u32;
    for row in &places.rows {
        push_place(alloc, place, &row.visible, told.at(place), slots, &mut rows)?;
        place = place.saturating_add(1);
    }
    Ok(rows)
}

/// The verdicts at all places, for variables below a number.
fn rows_of(
    alloc: Global,
    places: &PlaceTable,
    told: &ToldPlaces<'_>,
    variables: usize,
) -> Result<Vec<PlaceVerdict>, AllocError>
    requires few { length places.now.rows.items < 4294967295 }
    requires count { length told.now.by_place.items ≡ length places.now.rows.items + 1 }
    requires below { (p : ℕ) → AreBelow variables (told_at told.now p) }
    ensures sights { IfOk result (λ v. map sight v.items ≡ sights_from 1 places.now.rows.items) }
    ensures told { IfOk result (λ v. AreRowsTold places.now told.now v.items) }
{
    let mut slots = vec![in alloc; 0usize; variables]?;
    let rows = rows_by(alloc, places, told, &mut slots)?;
    Ok(rows)
}

/// A number that is above the variables of scalars, and not below another one.
fn above_scalars(scalars: &[Scalar], least: usize) -> usize
    ensures least { least ≤ result }
    ensures above { (s : declared-scalar.Scalar) → Among s scalars.now → s.var.0 < result }
{
    let mut count = least;
    for scalar in scalars {
        count = count.max(scalar.var.0 as usize + 1);
    }
    count
}

/// Above the numbers of all variables that are scalars of a unit.
fn variable_count(homed: &HomedUnit) -> usize
    ensures { (f x variable : ℕ) (g : Graph) → slice_get (homed_view homed.now).unit.graphs f ≡ Some g
        → IsVariable g x variable → variable < result }
{
    let mut count = 0usize;
    for graph in &homed.unit.graphs {
        count = above_scalars(&graph.scalars, count);
    }
    count
}

/// What is told of the scalars of each function.
fn told_of_all<'a>(
    alloc: Global,
    homed: &'a HomedUnit,
    removed: &'a RemovedChanges,
    places: &PlaceTable,
    flow: &FlowTable,
) -> Result<ToldPlaces<'a>, AllocError>
    requires marked { AreWellMarked (homed_view homed.now).unit }
    requires homes { HaveHomes (homed_view homed.now) }
    requires shared { AreSharesLogged (homed_view homed.now) }
    requires flow { IsFlowOf (homed_view homed.now).unit flow.now }
    requires table { IsTableOf (homed_view homed.now).unit places.now }
    requires removed { AreRemovalsTold (homed_view homed.now).unit.log removed.now }
    ensures so { IfOk result (λ told. AreSo (homed_view homed.now) places.now told) }
    ensures evident { IfOk result
        (λ told. AreToldEvident (homed_view homed.now).unit.log flow.now (homed_view homed.now) told) }
    ensures count { IfOk result (λ told. length told.by_place.items ≡ length places.now.rows.items + 1) }
{
    let count = places.rows.len() + 1;
    let changes = homed.unit.log.changes();
    let mut teller = Teller::new(alloc, changes, flow, count)?;
    let mut told = ToldPlaces::new(alloc, count)?;
    let unit = Surroundings {
        changes,
        removed,
        places,
    };
    let graphs = &homed.unit.graphs;
    let homes = &homed.homes;
    for f in 0..graphs.len() {
        let graph = &graphs[f];
        let names = &homes[f];
        told.add_function(alloc, &mut teller, &unit, f as u32, graph, &names.homes)?;
    }
    Ok(told)
}

/// The verdict on each variable that is visible at each place, in the order of places and then of variables.
///
/// The unit is well marked, each of its names has its home, and its log tells of the registers that scalars share; the
/// places and their flow are the unit's. The only error is want of memory.
pub fn verdicts(
    alloc: Global,
    homed: &HomedUnit,
    places: &PlaceTable,
    flow: &FlowTable,
) -> Result<Vec<PlaceVerdict>, AllocError>
    requires marked { AreWellMarked (homed_view homed.now).unit }
    requires homes { HaveHomes (homed_view homed.now) }
    requires shared { AreSharesLogged (homed_view homed.now) }
    requires flow { IsFlowOf (homed_view homed.now).unit flow.now }
    requires table { IsTableOf (homed_view homed.now).unit places.now }
    requires few { length (homed_view homed.now).unit.log < 4294967295 }
    ensures visible { IfOk result (λ v. map sight v.items ≡ sights_from 1 places.now.rows.items) }
    ensures home { IfOk result (λ v. AreHome (homed_view homed.now) v.items) }
    ensures recovered { IfOk result (λ v. AreRecovered (homed_view homed.now) v.items) }
    ensures apart { IfOk result (λ v. AreApart (homed_view homed.now) v.items) }
    ensures only { IfOk result (λ v. AreOnly (homed_view homed.now) v.items) }
    ensures least { IfOk result (λ v. AreLeast (homed_view homed.now) v.items) }
    ensures hidden { IfOk result (λ v. AreHidden (homed_view homed.now) v.items) }
    ensures reached { IfOk result (λ v. AreReached (homed_view homed.now) v.items) }
    ensures named { IfOk result (λ v. AreNamed (homed_view homed.now).unit.log v.items) }
    ensures written { IfOk result (λ v. AreWritten (homed_view homed.now) v.items) }
    ensures evident { IfOk result
        (λ v. AreEvident (homed_view homed.now).unit.log flow.now (homed_view homed.now) v.items) }
{
    let removed = RemovedChanges::new(alloc, homed.unit.log.changes())?;
    let told = told_of_all(alloc, homed, &removed, places, flow)?;
    let rows = rows_of(alloc, places, &told, variable_count(homed))?;
    Ok(rows)
}
