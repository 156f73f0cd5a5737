//! Copies of a unit.

ghost use Rattle.std.specs.Prelude.{◌≡◌, ◌<◌, ◌^◌, IfOk, codes, length, map};
ghost use Rattle.std.specs.List.{AllByRecursion};
ghost use Rattle.debug_records.specs.Change.{pass_name};
ghost use Rattle.debug_records.specs.declared.change.Kind.TheVariants.{Replaced};
ghost use Rattle.graph_core.specs.Graphs.{graph_view, unit_view};
ghost use Rattle.graph_core.specs.Validity.{IsValid};
ghost use Rattle.copy_pass_rule.specs.Copying.{IsPropagated};
ghost use Rattle.copy_pass_rule.specs.Countable.{IsCountable};
ghost use Rattle.pass_law.specs.Changes.{AddsChangesOf};
ghost use Rattle.pass_law.specs.Kept.{AddsChanges, EachFunction, KeepsAllButBlocks, ShareTheSame};
ghost use Rattle.copy_pass.specs.Reads.{IsReplacedRead};

use crate::graphs::copies_of;
use crate::replaced_reads;
use copy_pass_rule::propagated;
use debug_records::{Kind, PassName};
use graph_core::{Graph, Unit};
use pass_law::log_cases;
use std::alloc::{AllocError, Global};

/// The name of the pass.
fn copy_name() -> PassName
    ensures { result ≡ pass_name (codes "copy") }
{
    match PassName::of(b"copy") {
        Some(name) => name,
        None => unreachable!(),
    }
}

/// The graph with its copies propagated.
///
/// The search goes along a graph once and says which copies there are in the end. By these the graph is read, and seen
/// to
/// make just them; else the rule finds the copies itself.
fn graph_after(alloc: Global, graph: &Graph) -> Result<Graph, AllocError>
    requires countable { IsCountable (graph_view graph.now) }
    ensures { IfOk result (λ v. IsPropagated (graph_view graph.now) (graph_view v)) }
{
    let copies = copies_of(alloc, &graph.scalars, &graph.blocks)?;
    propagated(alloc, graph, &copies)
}

/// The graphs with their copies propagated, one after the other.
fn graphs_after(alloc: Global, graphs: &[Graph]) -> Result<Vec<Graph>, AllocError>
    requires countable { AllByRecursion IsCountable (map graph_view graphs.now) }
    ensures { IfOk result (λ all. EachFunction IsPropagated (map graph_view graphs.now) (map graph_view all.items)) }
{
    let mut made = Vec::new(alloc);
    let mut left = graphs;
    while let [graph, rest @ ..] = left {
        let next = graph_after(alloc, graph)?;
        made.push(next)?;
        left = rest;
    }
    Ok(made)
}

/// Copy propagation (Aho, Lam, Sethi and Ullman 2006, section 9.1): a read of a scalar becomes a read of another one of
/// the
/// same C type where one instruction that copies that one to it reaches on every path from the function's entry with
/// neither written since, until there is no such read. In code that no path reaches nothing changes. The log tells each
/// read that became another by a change `Replaced` of the pass `copy`: of the place, and of the variable that was read
/// before; in order of place, then of block, instruction and operand.
///
/// `AllocError` where memory was refused.
pub fn propagate_copies(alloc: Global, unit: &Unit) -> Result<Unit, AllocError>
    requires valid { IsValid (unit_view unit.now) }
    requires room { length (unit_view unit.now).log < 2 ^ 31 }
    ensures valid { IfOk result (λ v. IsValid (unit_view v)) }
    ensures shared { IfOk result (λ v. ShareTheSame (unit_view unit.now) (unit_view v)) }
    ensures log { IfOk result (λ v. AddsChanges (pass_name (codes "copy")) Replaced
        (unit_view unit.now) (unit_view v)) }
    ensures changes { IfOk result (λ v. AddsChangesOf (pass_name (codes "copy")) Replaced IsReplacedRead
        (unit_view unit.now) (unit_view v)) }
    ensures functions { IfOk result (λ v. EachFunction KeepsAllButBlocks
        (unit_view unit.now).graphs (unit_view v).graphs) }
    ensures exact { IfOk result (λ v. EachFunction IsPropagated
        (unit_view unit.now).graphs (unit_view v).graphs) }
{
    let graphs = graphs_after(alloc, &unit.graphs)?;
    let mut cases = replaced_reads(alloc, &unit.graphs, &graphs)?;
    let mut made = unit.duplicate(alloc)?;
    made.graphs = graphs;
    log_cases(&mut made.log, copy_name(), Kind::Replaced, &mut cases)?;
    Ok(made)
}
