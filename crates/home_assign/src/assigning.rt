//! Homes for the names of a unit.

ghost use Rattle.std.specs.Prelude.{◌≡◌, ◌<◌, ◌≤◌, ℕ, IfOk, length, map, slice_get};
ghost use Rattle.std.specs.List.{AllByRecursion};
ghost use Rattle.debug_records.specs.Change.{changes};
ghost use Rattle.graph_core.specs.Graphs.{graph_view, logged, unit_view};
ghost use Rattle.graph_core.specs.Validity.{IsValid};
ghost use Rattle.graph_homes.specs.Homed.{HaveHomes, homed_view};
ghost use Rattle.home_assign.specs.Changes.{HaveChanges, homes_pass};
ghost use Rattle.home_assign.specs.Homes.{AreHomesFor, homes_listed};
ghost use Rattle.home_assign.specs.Rule.{AreHomes, HaveHomesApart, HaveRegisters, HaveSlots};
ghost use Rattle.home_assign.specs.Units.{AreHomesOfEach, AreLoggedOfEach, IsHomeable};
ghost use Rattle.home_assign.specs.Clashes.{MayHaveHomes};

use crate::choosing::registers;
use crate::{log_shared, moved_by};
use debug_records::{ChangeLog, Mode, PassName};
use graph_core::{Graph, Unit};
use graph_homes::{FunctionHomes, Home, HomedUnit};
use std::alloc::{AllocError, Global};

/// A slot for each name.
#[tactic(auto, using(crate::proofs::Among::among_put))]
fn slots(alloc: Global, graph: &Graph) -> Result<Vec<Home>, AllocError>
    requires { graph.now.name_count ≤ 3000 }
    ensures homes { IfOk result (λ v. AreHomesFor graph.now.name_count v.items) }
    ensures slots { IfOk result (λ v. AreHomes Mode.Slots (graph_view graph.now) v.items) }
{
    let mut homes = Vec::new(alloc);
    for name in 0..graph.name_count {
        homes.push(Home::Slot(name))?;
    }
    Ok(homes)
}

/// The homes of a graph's names.
fn homes_of(alloc: Global, graph: &Graph, mode: Mode) -> Result<Vec<Home>, AllocError>
    requires { MayHaveHomes (graph_view graph.now) }
    ensures homes { IfOk result (λ v. AreHomesFor graph.now.name_count v.items) }
    ensures rule { IfOk result (λ v. AreHomes mode (graph_view graph.now) v.items) }
{
    match mode {
        Mode::Slots => slots(alloc, graph),
        Mode::Registers => registers(alloc, graph),
    }
}

/// The name of the pass by which registers are shared.
fn pass_name() -> PassName
    ensures { result ≡ homes_pass }
{
    match PassName::of(b"homes") {
        Some(name) => name,
        None => unreachable!(),
    }
}

/// Homes for the names of graphs. The log tells of each scalar whose register other names have too.
fn homes_of_all(
    alloc: Global,
    graphs: &[Graph],
    mode: Mode,
    log: &mut ChangeLog,
) -> Result<Vec<FunctionHomes>, AllocError>
    requires { AllByRecursion IsHomeable (map graph_view graphs.now) }
    ensures homes { IfOk result (λ v. AreHomesOfEach mode (map graph_view graphs.now) (homes_listed v.items)) }
    ensures changes { IfOk result (λ v.
        AreLoggedOfEach (map logged (changes log.old)) homes_pass (map graph_view graphs.now) (homes_listed v.items)
        (map logged (changes log.old)) (map logged (changes log.new))) }
{
    let moved = moved_by(alloc, log.changes())?;
    let mut homes = Vec::new(alloc);
    let mut left = graphs;
    while let [graph, rest @ ..] = left {
        let of = homes_of(alloc, graph, mode)?;
        log_shared(alloc, graph, &of, &moved, pass_name(), log)?;
        homes.push(FunctionHomes { homes: of })?;
        left = rest;
    }
    Ok(homes)
}

/// A unit with homes for its names. Its log tells of each scalar whose register other names have too.
pub fn assign(alloc: Global, unit: &Unit, mode: Mode) -> Result<HomedUnit, AllocError>
    requires { IsValid (unit_view unit.now) }
    ensures homes { IfOk result (λ h. HaveHomes (homed_view h)) }
    ensures slots { IfOk result (λ h. mode ≡ Mode.Slots → HaveSlots (homed_view h)) }
    ensures rule { IfOk result (λ h. mode ≡ Mode.Registers → HaveRegisters (homed_view h)) }
    ensures apart { IfOk result (λ h. HaveHomesApart (homed_view h)) }
    ensures changes { IfOk result (λ h. HaveChanges (unit_view unit.now) (homed_view h)) }
    ensures unit { IfOk result
        (λ h. (homed_view h).unit ≡ record (unit_view unit.now) { log = (homed_view h).unit.log }) }
    ensures valid { IfOk result (λ h. IsValid (homed_view h).unit) }
    ensures mode { IfOk result (λ h. h.mode ≡ mode) }
{
    let mut unit = unit.duplicate(alloc)?;
    let homes = homes_of_all(alloc, &unit.graphs, mode, &mut unit.log)?;
    Ok(HomedUnit { unit, mode, homes })
}
