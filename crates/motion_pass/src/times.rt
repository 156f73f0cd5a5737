//! How often a computation is done along a list of blocks.

ghost use Rattle.std.specs.Prelude.{◌≡◌, ◌↔◌, ◌-◌, ◌^◌, ◌<◌, IfOk, IfSome, IsTrue, MatchOption, length, map, min, slice_get};
ghost use Rattle.std.specs.List.{list_any};
ghost use Rattle.graph_core.specs.Graphs.{graph_view, instruction_view};
ghost use Rattle.graph_core.specs.Validity.{total};
ghost use Rattle.motion_pass_points.specs.Computing.{does};
ghost use Rattle.motion_pass_points.specs.MotionPointsComputing.{computation_view};
ghost use Rattle.motion_pass.specs.Counts.{IsEntered, IsPath, LeadsTo, is_label, once, times_along, times_in};

use graph_core::{Graph, Instr, Label};
use motion_pass_points::Computation;
use std::alloc::{AllocError, Global};

/// Whether two computations are one: an operation and operands that are equal, in order.
fn is_one(one: Computation, other: Computation) -> bool
    ensures { IsTrue result ↔ (one ≡ other) }
{
    match (one, other) {
        (
            Computation::Operated {
                operation,
                left,
                right,
            },
            Computation::Operated {
                operation: another,
                left: first,
                right: second,
            },
        ) => operation == another && left == first && right == second,
        (
            Computation::Truncated { truncation, from },
            Computation::Truncated {
                truncation: another,
                from: of,
            },
        ) => truncation == another && from == of,
        (
            Computation::Compared { left, right },
            Computation::Compared {
                left: first,
                right: second,
            },
        ) => left == first && right == second,
        _ => false,
    }
}

/// Whether an instruction does a computation.
fn is_done_by(e: &Computation, instruction: &Instr) -> bool
    ensures { result ≡ does (computation_view e.now) (instruction_view instruction.now) }
{
    match Computation::of(instruction) {
        Some(done) => is_one(done, *e),
        None => false,
    }
}

/// Whether an instruction does a computation, as a number.
fn once(e: &Computation, instruction: &Instr) -> u64
    ensures { result ≡ once (computation_view e.now) (instruction_view instruction.now) }
{
    if is_done_by(e, instruction) { 1 } else { 0 }
}

/// How often instructions do a computation, or the greatest number where it is more often.
fn times_in(e: &Computation, instructions: &[Instr]) -> u64
    ensures { result
        ≡ min (total (once (computation_view e.now)) (map instruction_view instructions.now)) (2 ^ 64 - 1) }
{
    instructions.iter().fold(
        0,
        |sum, instruction| sum.saturating_add(once(e, instruction)),
    )
}

/// How often the block of a number does a computation, or the greatest number where it is more often.
fn times_of(e: &Computation, graph: &Graph, number: u32) -> u64
    ensures { result
        ≡ min (times_in (computation_view e.now) (slice_get (graph_view graph.now).blocks number)) (2 ^ 64 - 1) }
{
    match graph.blocks.get(number as usize) {
        Some(block) => times_in(e, &block.instructions),
        None => 0,
    }
}

/// How often blocks do a computation, or the greatest number where it is more often.
fn times_along(e: &Computation, graph: &Graph, path: &[u32]) -> u64
    ensures { result ≡ min (times_along (graph_view graph.now).blocks (computation_view e.now) path.now) (2 ^ 64 - 1) }
{
    path.iter().fold(
        0,
        |sum, number| sum.saturating_add(times_of(e, graph, *number)),
    )
}

/// Whether a block is among these.
fn is_among(to: u32, labels: &[Label]) -> bool
    ensures { result ≡ list_any (is_label to) labels.now }
{
    labels.iter().any(|label| label.0 == to)
}

/// Whether the end of a block leads to another.
fn leads_to(graph: &Graph, from: u32, to: u32) -> bool
    ensures { IsTrue result ↔ LeadsTo (graph_view graph.now).blocks from to }
{
    let Some(block) = graph.blocks.get(from as usize) else {
        return false;
    };
    is_among(to, block.end.targets().as_slice())
}

/// Whether the block at an index of a list is one that execution may enter there: the first block of the graph at the
/// beginning, and a target of the one before behind it.
fn is_entered(graph: &Graph, path: &[u32], index: usize) -> bool
    requires { index < length path.now }
    ensures { IsTrue result ↔ IsEntered (graph_view graph.now).blocks path.now index }
{
    let number = path[index];
    if number as usize >= graph.blocks.len() {
        return false;
    }
    if index == 0 {
        return number == 0;
    }
    leads_to(graph, path[index - 1], number)
}

/// Whether a list of blocks is a path from the entry.
fn is_path(graph: &Graph, path: &[u32]) -> bool
    ensures { IsTrue result ↔ IsPath (graph_view graph.now).blocks path.now }
{
    for index in 0..path.len() {
        if !is_entered(graph, path, index) {
            return false;
        }
    }
    !path.is_empty()
}

/// How often a computation is done along a list of blocks, or the greatest number where it is more often. None where
/// the list is no path from the entry.
pub fn counts(
    _alloc: Global,
    graph: &Graph,
    path: &[u32],
    e: &Computation,
) -> Result<Option<u32>, AllocError>
    ensures path { IfOk result (λ o.
        MatchOption o (IsPath (graph_view graph.now).blocks path.now → ⊥) (λ c.
        IsPath (graph_view graph.now).blocks path.now)) }
    ensures counted { IfOk result (λ o.
        IfSome o (λ c.
        c ≡ min (times_along (graph_view graph.now).blocks (computation_view e.now) path.now) (2 ^ 32 - 1))) }
{
    if !is_path(graph, path) {
        return Ok(None);
    }
    let times = times_along(e, graph, path);
    if times >= 0xffff_ffff {
        return Ok(Some(u32::MAX));
    }
    Ok(Some(times as u32))
}
