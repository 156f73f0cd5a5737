//! The code of a function by a plan.

ghost use Rattle.std.specs.Prelude.{◌≡◌, ℕ, true, IfOk, IfSome, OnOk, length, min};
ghost use Rattle.graph_core.specs.Graphs.{end_view, graph_view};
ghost use Rattle.graph_core.specs.Paths.{Among};
ghost use Rattle.graph_core.specs.Uses.{targets_of};
ghost use Rattle.rv_emit_plan.specs.Plans.{held_at, HoldsWell, IsOrder};
ghost use Rattle.rv_emit_sequence.specs.Sequences.{first_number, ground_of, sequence_view, AreConstants, ArePut, HasEnd, Holds, IsPut, IsSequenceOf};

use crate::held::{held_at, holds, holds_all};
use crate::plain::plain_sequence_of;
use crate::sequence::Sequence;
use graph_core::{End, Graph, Label};
use rv_emit_code::code_of_block;
use rv_emit_plan::{Plan, plan_of};
use rv_emit_storage::Storage;
use rv_emit_words::Held;
use std::alloc::{AllocError, Global};

/// Appends what is not there yet.
fn add_held(all: &mut Vec<Held>, held: &[Held]) -> Result<(), AllocError>
    ensures { OnOk result (AreConstants all.old.items → AreConstants held.now → AreConstants all.new.items) }
{
    let mut left = held;
    while let [one, rest @ ..] = left {
        if !holds(all, *one) {
            all.push(*one)?;
        }
        left = rest;
    }
    Ok(())
}

/// What is to be held where the end of a block leads.
fn loads_of(alloc: Global, plan: &Plan, end: &End) -> Result<Vec<Held>, AllocError>
    ensures { IfOk result (λ loads. HoldsWell plan.now → AreConstants loads.items) }
{
    let mut loads = Vec::new(alloc);
    let targets = end.targets();
    for label in targets.as_slice() {
        add_held(&mut loads, held_at(plan, label.0))?;
    }
    Ok(loads)
}

/// Whether what is held behind a block is what each block holds to which its end leads.
fn leads_well(plan: &Plan, end: &End, held: &[Held]) -> bool
    ensures { result ≡ true → (l : ℕ) → Among l (targets_of (end_view end.now)) → Holds held.now (held_at plan.now l) }
{
    let targets = end.targets();
    for label in targets.as_slice() {
        if !holds_all(held, held_at(plan, label.0)) {
            return false;
        }
    }
    true
}

/// The block that stands next, where these stand behind one, or the end of the function.
fn next_of(behind: &[u32], end: Label) -> Label
    ensures { result.0 ≡ first_number behind.now end.0 }
{
    match behind {
        [next, ..] => Label(*next),
        [] => end,
    }
}

impl Sequence {
    /// Appends the code of a block by a plan, behind which this one stands next. Where the plan does not hold, answers
    /// false.
    fn push_planned(
        &mut self,
        alloc: Global,
        storage: &Storage<'_>,
        graph: &Graph,
        plan: &Plan,
        number: u32,
        next: Label,
    ) -> Result<bool, AllocError>
        ensures { IfOk result (λ is.
            is ≡ true → HoldsWell plan.now
            → IsPut (ground_of storage.now) (graph_view graph.now).blocks (held_at plan.now) number next.0
            (sequence_view self.old) (sequence_view self.new)) }
    {
        let Some(block) = graph.blocks.get(number as usize) else {
            return Ok(false);
        };
        let loads = loads_of(alloc, plan, &block.end)?;
        let known = held_at(plan, number);
        let code = code_of_block(alloc, storage, block, next, known, &loads)?;
        if !leads_well(plan, &block.end, &code.held) {
            return Ok(false);
        }
        self.push_block(number, &code)?;
        Ok(true)
    }
}

/// Appends the code of all blocks by a plan. Where the plan does not hold, answers false.
fn push_all_planned(
    alloc: Global,
    storage: &Storage<'_>,
    graph: &Graph,
    plan: &Plan,
    sequence: &mut Sequence,
) -> Result<bool, AllocError>
    ensures { IfOk result (λ is.
        is ≡ true → HoldsWell plan.now
        → ArePut (ground_of storage.now) (graph_view graph.now).blocks (held_at plan.now) plan.now.order.items
        (sequence_view sequence.old) (sequence_view sequence.new)) }
{
    let mut left: &[u32] = &plan.order;
    while let [number, rest @ ..] = left {
        let next = next_of(rest, storage.end);
        if !sequence.push_planned(alloc, storage, graph, plan, *number, next)? {
            return Ok(false);
        }
        left = rest;
    }
    Ok(true)
}

/// The code of a function by a plan, if the plan holds: along each edge what the block there holds is held, or loaded
/// at the end.
fn planned_sequence_of(
    alloc: Global,
    storage: &Storage<'_>,
    graph: &Graph,
    plan: &Plan,
    is_main: bool,
) -> Result<Option<Sequence>, AllocError>
    ensures sequence { IfOk result (λ found.
        IfSome found (λ made.
        IsOrder (min (length graph.now.blocks.items) 4294967295) plan.now.order.items → HoldsWell plan.now
        → HasEnd (ground_of storage.now) (graph_view graph.now)
        → IsSequenceOf (ground_of storage.now) (graph_view graph.now) is_main (sequence_view made))) }
{
    let mut sequence = Sequence::new(alloc, storage, graph, is_main)?;
    if !push_all_planned(alloc, storage, graph, plan, &mut sequence)? {
        return Ok(None);
    }
    sequence.push_end(alloc, storage)?;
    Ok(Some(sequence))
}

/// The code of a function by the plan that is made for it, where that holds, and else its blocks as they stand.
pub fn sequence_by_plan(
    alloc: Global,
    storage: &Storage<'_>,
    graph: &Graph,
    is_main: bool,
) -> Result<Sequence, AllocError>
    ensures { IfOk result (λ made.
        HasEnd (ground_of storage.now) (graph_view graph.now)
        → IsSequenceOf (ground_of storage.now) (graph_view graph.now) is_main (sequence_view made)) }
{
    let plan = plan_of(alloc, storage, graph)?;
    match planned_sequence_of(alloc, storage, graph, &plan, is_main)? {
        Some(sequence) => Ok(sequence),
        None => plain_sequence_of(alloc, storage, graph, is_main),
    }
}
