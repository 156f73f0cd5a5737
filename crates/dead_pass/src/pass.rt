//! The pass.

ghost use Rattle.std.specs.Prelude.{◌≡◌, ◌+◌, ◌<◌, ◌^◌, IfOk, List, codes, length, map};
ghost use Rattle.std.specs.List.{AllByRecursion};
ghost use Rattle.places.specs.declared.flow.Assignment.{Assignment};
ghost use Rattle.debug_records.specs.Change.{pass_name};
ghost use Rattle.debug_records.specs.declared.change.Kind.TheVariants.{Removed};
ghost use Rattle.dead_pass_notes.specs.Idle.{IsBorneOut, IsOf, graph_of};
ghost use Rattle.dead_pass_notes.specs.Said.{SaysWhatItShall};
ghost use Rattle.dead_pass_writes.specs.RemovedChangesTelling.{AreToldOf};
ghost use Rattle.dead_pass.specs.Left.{IsLeftGraph};
ghost use Rattle.dead_pass.specs.Notes.{SayWhatTheyShall};
ghost use Rattle.graph_core.specs.Graphs.{Graph as GraphForm, Logged, UnitForm, graph_view, unit_view};
ghost use Rattle.graph_core.specs.Validity.{IsGraph, IsValid};
ghost use Rattle.dead_pass_rule.specs.Free.{AreNamed};
ghost use Rattle.dead_pass_rule.specs.Removing.{IsReduced};
ghost use Rattle.pass_law.specs.Changes.{AddsChangesOf, AreCasesOf};
ghost use Rattle.pass_law.specs.Kept.{AddsChanges, EachFunction, KeepsAllButBlocks, ShareTheSame};
ghost use Rattle.dead_pass_notes.specs.Writes.{IsRemovedWrite};

use crate::notes::graph_left;
use dead_pass_notes::{IdleGraph, removed_writes};
use dead_pass_writes::RemovedChanges;
use debug_records::{Kind, PassName};
use graph_core::{Graph, Unit};
use pass_law::{Case, log_cases};
use places::FlowTable;
use std::alloc::{AllocError, Global};

/// The name of the pass.
fn dead_name() -> PassName
    ensures { result ≡ pass_name (codes "dead") }
{
    match PassName::of(b"dead") {
        Some(name) => name,
        None => unreachable!(),
    }
}

/// What goes of each graph.
fn idle_graphs<'a>(
    alloc: Global,
    graphs: &'a [Graph],
    flow: &'a FlowTable,
) -> Result<Vec<IdleGraph<'a>>, AllocError>
    requires few { AllByRecursion (λ (g : GraphForm). length g.blocks + 2 < 2 ^ 32) (map graph_view graphs.now) }
    requires named { AllByRecursion (λ (g : GraphForm). AreNamed g.blocks g.name_count) (map graph_view graphs.now) }
    ensures graphs { IfOk result (λ all. map graph_of all.items ≡ map graph_view graphs.now) }
    ensures assignments { IfOk result (λ all. AllByRecursion (IsOf flow.now.assignments.items) all.items) }
    ensures borne_out { IfOk result (λ all. AllByRecursion IsBorneOut all.items) }
{
    let mut all = Vec::new(alloc);
    for graph in graphs {
        let idle = IdleGraph::new(alloc, graph, flow)?;
        all.push(idle)?;
    }
    Ok(all)
}

/// The assignments of scalars that go, function by function.
fn removed_cases(alloc: Global, idle: &[IdleGraph<'_>]) -> Result<Vec<Case>, AllocError>
    requires { AllByRecursion IsBorneOut idle.now }
    ensures { IfOk result (λ cases. (assignments : List Assignment) → AllByRecursion (IsOf assignments) idle.now
        → AreCasesOf (λ before after. IsRemovedWrite assignments before) (map graph_of idle.now) (map graph_of idle.now)
        cases.items) }
{
    let mut cases = Vec::new(alloc);
    for number in 0..idle.len() {
        let one = &idle[number];
        removed_writes(one.graph, &one.turns, &mut cases)?;
    }
    Ok(cases)
}

/// What is left of each graph.
fn graphs_left(
    alloc: Global,
    idle: &[IdleGraph<'_>],
    removed: &RemovedChanges,
) -> Result<Vec<Graph>, AllocError>
    requires { AllByRecursion IsBorneOut idle.now }
    ensures left { IfOk result (λ left. (assignments : List Assignment) → AllByRecursion (IsOf assignments) idle.now
        → EachFunction (IsReduced assignments) (map graph_of idle.now) (map graph_view left.items)) }
    ensures notes { IfOk result (λ left. (log : List Logged) (u : UnitForm) → AreToldOf log removed.now
        → AllByRecursion (IsGraph u) (map graph_of idle.now) → (assignments : List Assignment)
        → AllByRecursion (IsOf assignments) idle.now
        → EachFunction (SaysWhatItShall assignments log) (map graph_of idle.now) (map graph_view left.items)) }
{
    let mut left = Vec::new(alloc);
    let mut ahead = idle;
    while let [graph, rest @ ..] = ahead {
        let next = graph_left(alloc, graph, removed)?;
        left.push(next)?;
        ahead = rest;
    }
    Ok(left)
}

/// A unit without its dead assignments (Kennedy 1981; notes by Hennessy 1982). In code that some path reaches a
/// computation goes, or a call's target, where what it writes is a temporary, or a scalar that nothing else writes in
/// its
/// place, which assigns its variable, and each read that it reaches is by a computation that goes. The log tells each
/// assignment of a scalar that goes by a change `Removed` of the pass `dead`: of its place and variable; in order of
/// place, then of block and instruction. Its note gives the recipe of its right side, where there is one, or else that
/// the value is gone by the change; earlier notes become so where a name of their recipe is no longer written.
///
/// `AllocError` where memory was refused.
pub fn remove_dead(alloc: Global, unit: &Unit) -> Result<Unit, AllocError>
    requires valid { IsValid (unit_view unit.now) }
    requires room { length (unit_view unit.now).log < 2 ^ 31 }
    ensures valid { IfOk result (λ v. IsValid (unit_view v)) }
    ensures shared { IfOk result (λ v. ShareTheSame (unit_view unit.now) (unit_view v)) }
    ensures log { IfOk result (λ v. AddsChanges (pass_name (codes "dead")) Removed (unit_view unit.now) (unit_view v)) }
    ensures changes { IfOk result (λ v. AddsChangesOf (pass_name (codes "dead")) Removed
        (λ before after. IsRemovedWrite (unit_view unit.now).assignments before) (unit_view unit.now) (unit_view v)) }
    ensures functions { IfOk result
        (λ v. EachFunction KeepsAllButBlocks (unit_view unit.now).graphs (unit_view v).graphs) }
    ensures left { IfOk result (λ v. EachFunction IsLeftGraph (unit_view unit.now).graphs (unit_view v).graphs) }
    ensures exact { IfOk result (λ v. EachFunction (IsReduced (unit_view unit.now).assignments)
        (unit_view unit.now).graphs (unit_view v).graphs) }
    ensures notes { IfOk result (λ v. SayWhatTheyShall (unit_view unit.now) (unit_view v)) }
{
    let idle = idle_graphs(alloc, &unit.graphs, &unit.flow)?;
    let mut cases = removed_cases(alloc, &idle)?;
    let mut left = unit.duplicate(alloc)?;
    log_cases(&mut left.log, dead_name(), Kind::Removed, &mut cases)?;
    let removed = RemovedChanges::new(alloc, left.log.changes())?;
    let graphs = graphs_left(alloc, &idle, &removed)?;
    left.graphs = graphs;
    Ok(left)
}
