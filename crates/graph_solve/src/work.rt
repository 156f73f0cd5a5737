//! Values that fall, block by block, until no block waits.

ghost use Rattle.std.specs.Prelude.{◌≡◌, ◌<◌, ◌≤◌, ◌+◌, ◌*◌, ◌^◌, ℕ, [], ◌∷◌, List, OnOk, IfOk, length, map, slice_index_or};
ghost use Rattle.std.specs.List.{Contains};
ghost use Rattle.graph_solve_problem.specs.Solution.{HasEdge};
ghost use Rattle.graph_solve.specs.Work.{IsTask, IsWork, IsMadeAt, edges_of, edges_from, to_come};

use crate::task::Task;
use bit_rows::Rows;
use graph_solve_problem::{FlowGraph, Problem, Steps};
use std::alloc::AllocError;
use std::collections::VecDeque;
use std::sync::ledger::Ledger;

/// The work of a solver: rows of values, and the blocks that wait.
#[derive(Drop)]
pub(crate) struct Work {
    /// For each block its value, and then for each what it makes of it.
    pub values: Rows,
    /// The blocks that wait, first those that have waited longest.
    pub queue: VecDeque<u32>,
    /// For each block whether it waits.
    pub waiting: Vec<bool>,
    /// For each block how often its value fell.
    pub counts: Vec<u32>,
}

/// Lets the value of block `to` meet what block `from` makes of its own. A block whose value falls waits.
fn follow<P: Problem, L: Ledger>(
    _problem: &P,
    _graph: &FlowGraph,
    task: &Task,
    from: u32,
    to: u32,
    work: &mut Work,
    steps: &mut Steps<L>,
) -> Result<(), AllocError>
    requires task { IsTask (P.flow _problem.now) _graph.now task.now }
    requires state { (left : List ℕ) × IsWork (P.flow _problem.now) _graph.now work.old from (to ∷ left) }
    requires edge { HasEdge (edges_of (P.flow _problem.now) _graph.now) from to }
    requires made { IsMadeAt (P.flow _problem.now) _graph.now work.old from }
    ensures state { OnOk result
        ((left : List ℕ) → IsWork (P.flow _problem.now) _graph.now work.old from (to ∷ left)
        → IsWork (P.flow _problem.now) _graph.now work.new from left) }
    ensures made { OnOk result (IsMadeAt (P.flow _problem.now) _graph.now work.new from) }
    ensures to_come { OnOk result
        ((weight : ℕ → ℕ) → to_come weight task.now.height work.new ≤ to_come weight task.now.height work.old) }
    ensures steps { steps.new ≡ steps.old + 1 }
{
    steps.tick();
    if work.values.meet_into(task.blocks + from, to, task.unites) {
        let at = to as usize;
        prove!(work.counts[at] < task.height);
        work.counts[at] += 1;
        if !work.waiting[at] {
            work.waiting[at] = true;
            work.queue.push_back(to)?;
        }
    }
    Ok(())
}

/// Makes a block's further row of its value, and follows its edges.
fn visit<P: Problem, L: Ledger>(
    problem: &P,
    graph: &FlowGraph,
    task: &Task,
    block: u32,
    work: &mut Work,
    steps: &mut Steps<L>,
) -> Result<(), AllocError>
    requires task { IsTask (P.flow problem.now) graph.now task.now }
    requires block { block < length graph.now.ends.items }
    requires state { IsWork (P.flow problem.now) graph.now work.old block
        (slice_index_or (map (λ v. v.items) task.now.targets.items) block []) }
    requires made { IsMadeAt (P.flow problem.now) graph.now work.old block }
    ensures state { OnOk result (IsWork (P.flow problem.now) graph.now work.new block []) }
    ensures to_come { OnOk result
        ((weight : ℕ → ℕ) → to_come weight task.now.height work.new ≤ to_come weight task.now.height work.old) }
    ensures steps { OnOk result (steps.new ≡ steps.old + edges_from task.now block) }
{
    for to in &task.targets[block as usize] {
        follow(problem, graph, task, block, *to, work, steps)?;
    }
    Ok(())
}

/// Visits the blocks that wait, until none does.
pub(crate) fn settle<P: Problem, L: Ledger>(
    problem: &P,
    graph: &FlowGraph,
    task: &Task,
    work: &mut Work,
    steps: &mut Steps<L>,
) -> Result<(), AllocError>
    requires task { IsTask (P.flow problem.now) graph.now task.now }
    requires state { IsWork (P.flow problem.now) graph.now work.old 0 [] }
    ensures state { OnOk result (IsWork (P.flow problem.now) graph.now work.new 0 []) }
    ensures done { OnOk result (work.new.queue.items ≡ []) }
    ensures steps { OnOk result (steps.new ≤ steps.old + to_come (edges_from task.now) task.now.height work.old) }
{
    while let Some(block) = work.queue.pop_front() {
        let at = block as usize;
        work.waiting[at] = false;
        work.values.pass_into(block, task.blocks + block, &task.kept, &task.written, block);
        visit(problem, graph, task, block, work, steps)?;
    }
    Ok(())
}
