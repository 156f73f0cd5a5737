//! The pass.

ghost use Rattle.std.specs.Prelude.{◌≡◌, ◌<◌, ◌≤◌, ◌^◌, ◌++◌, IfOk, List, [], ◌∷◌, codes, length, map};
ghost use Rattle.debug_records.specs.Change.{pass_name};
ghost use Rattle.memory_map.specs.declared.map.Room.TheVariants.{Large};
ghost use Rattle.graph_core.specs.Bounds.{most_blocks};
ghost use Rattle.graph_core.specs.Graphs as spec;
ghost use Rattle.graph_core.specs.Graphs.{graph_view, unit_view};
ghost use Rattle.graph_core.specs.Validity.{IsValid};
ghost use Rattle.debug_records.specs.declared.change.Kind.TheVariants.{Moved};
ghost use Rattle.pass_law.specs.Changes.{Adds, AddsChangesOf, AreCasesOf};
ghost use Rattle.pass_law.specs.Kept.{AddsChanges, EachFunction, KeepsFunction, ShareTheSame};
ghost use Rattle.motion_pass_placement.specs.Bounded.{IsBounded};
ghost use Rattle.motion_pass_placement.specs.Placed.{IsEnteredAgain, IsPlaced};
ghost use Rattle.motion_pass_placement.specs.Moves.{AreAllMoved, BecomesIn, IsMovedAssignment};
ghost use Rattle.motion_pass.specs.Amounts.{AreBounded, IsAmount};
ghost use Rattle.motion_pass.specs.Placing.{LeadInside};

use crate::bounds::Amount;
use crate::cases::add_moved;
use crate::moving::moved_graph;
use debug_records::{Kind, PassName};
use graph_core::{Graph, Room, Unit};
use motion_pass_placement::{Motion, Placement, place};
use pass_law::{Case, log_cases};
use std::alloc::{AllocError, Global};

/// The name of the pass.
fn motion_name() -> PassName
    ensures { result ≡ pass_name (codes "motion") }
{
    match PassName::of(b"motion") {
        Some(name) => name,
        None => unreachable!(),
    }
}

/// The graph with its computations placed so, or an equal one where the unit would not stay within bounds. How much the
/// unit has is kept.
fn moved_within(
    alloc: Global,
    room: Room,
    graph: &Graph,
    placement: &Placement,
    amount: &mut Amount,
    cases: &mut Vec<Case>,
) -> Result<Graph, AllocError>
    requires are { IsPlaced (graph_view graph.now) placement.now }
    requires once { IsEnteredAgain (graph_view graph.now).blocks → ⊥ }
    requires few { length (graph_view graph.now).blocks ≤ most_blocks Large }
    requires inside { LeadInside (graph_view graph.now).blocks }
    ensures becomes { IfOk result (λ h.
        (before behind : List spec.Graph) → IsAmount amount.old (before ++ graph_view graph.now ∷ behind)
        → BecomesIn room before (graph_view graph.now) behind (graph_view h)) }
    ensures amount { IfOk result (λ h.
        (before behind : List spec.Graph) → IsAmount amount.old (before ++ graph_view graph.now ∷ behind)
        → IsAmount amount.new (before ++ graph_view h ∷ behind)) }
    ensures cases { IfOk result (λ h.
        Adds (IsMovedAssignment (graph_view graph.now) (graph_view h)) cases.old.items cases.new.items) }
{
    let moved = moved_graph(alloc, graph, placement)?;
    let Some(after) = amount.replaced(room, graph, &moved) else {
        let same = graph.duplicate(alloc)?;
        return Ok(same);
    };
    add_moved(graph, placement, cases)?;
    *amount = after;
    Ok(moved)
}

/// The graph with its computations moved, or an equal one where the unit would not stay within bounds or the first
/// block is entered again.
fn graph_after(
    alloc: Global,
    room: Room,
    graph: &Graph,
    amount: &mut Amount,
    cases: &mut Vec<Case>,
) -> Result<Graph, AllocError>
    requires bounded { IsBounded (graph_view graph.now) }
    requires inside { LeadInside (graph_view graph.now).blocks }
    ensures becomes { IfOk result (λ h.
        (before behind : List spec.Graph) → IsAmount amount.old (before ++ graph_view graph.now ∷ behind)
        → BecomesIn room before (graph_view graph.now) behind (graph_view h)) }
    ensures amount { IfOk result (λ h.
        (before behind : List spec.Graph) → IsAmount amount.old (before ++ graph_view graph.now ∷ behind)
        → IsAmount amount.new (before ++ graph_view h ∷ behind)) }
    ensures cases { IfOk result (λ h.
        Adds (IsMovedAssignment (graph_view graph.now) (graph_view h)) cases.old.items cases.new.items) }
{
    let motion = place(alloc, graph)?;
    match motion {
        Motion::EnteredAgain => {
            let same = graph.duplicate(alloc)?;
            Ok(same)
        }
        Motion::Placed(placement) => {
            let made = moved_within(alloc, room, graph, &placement, amount, cases)?;
            Ok(made)
        }
    }
}

/// The graphs with their computations moved, one after the other.
fn move_graphs(
    alloc: Global,
    room: Room,
    graphs: &[Graph],
    cases: &mut Vec<Case>,
) -> Result<Vec<Graph>, AllocError>
    requires bounded { AreBounded (map graph_view graphs.now) }
    requires none { cases.old.items ≡ [] }
    ensures moved { IfOk result (λ v. AreAllMoved room (map graph_view graphs.now) (map graph_view v.items)) }
    ensures cases { IfOk result (λ v.
        AreCasesOf IsMovedAssignment (map graph_view graphs.now) (map graph_view v.items) cases.new.items) }
{
    let mut amount = Amount::of(graphs);
    let mut moved = Vec::new(alloc);
    for number in 0..graphs.len() {
        let graph = &graphs[number];
        let next = graph_after(alloc, room, graph, &mut amount, cases)?;
        moved.push(next)?;
    }
    Ok(moved)
}

/// The unit with its computations moved (Knoop, Rüthing and Steffen 1992), and a change of kind `Moved` for each
/// assignment of a variable that reads a temporary in place of
/// its computation, in order of place, then of block and instruction.
///
/// A function whose graph would pass a bound of valid units is left as it was, and one whose first block is entered
/// again. The only error is want of memory.
pub fn move_code(alloc: Global, unit: &Unit) -> Result<Unit, AllocError>
    requires valid { IsValid (unit_view unit.now) }
    requires room { length (unit_view unit.now).log < 2 ^ 31 }
    ensures valid { IfOk result (λ v. IsValid (unit_view v)) }
    ensures shared { IfOk result (λ v. ShareTheSame (unit_view unit.now) (unit_view v)) }
    ensures log { IfOk result (λ v. AddsChanges (pass_name (codes "motion")) Moved (unit_view unit.now) (unit_view v)) }
    ensures changes { IfOk result (λ v.
        AddsChangesOf (pass_name (codes "motion")) Moved IsMovedAssignment (unit_view unit.now) (unit_view v)) }
    ensures functions { IfOk result (λ v. EachFunction KeepsFunction (unit_view unit.now).graphs (unit_view v).graphs) }
    ensures moved { IfOk result
        (λ v. AreAllMoved (unit_view unit.now).room (unit_view unit.now).graphs (unit_view v).graphs) }
{
    let mut cases = Vec::new(alloc);
    let graphs = move_graphs(alloc, unit.room, &unit.graphs, &mut cases)?;
    let mut moved = unit.duplicate(alloc)?;
    moved.graphs = graphs;
    log_cases(&mut moved.log, motion_name(), Kind::Moved, &mut cases)?;
    Ok(moved)
}
