//! The work as it begins: each block waits once.

ghost use Rattle.std.specs.Prelude.{◌≡◌, ◌+◌, ◌*◌, ◌<◌, ◌^◌, ℕ, [], length, IfOk};
ghost use Rattle.std.specs.List.{All, Contains};
ghost use Rattle.graph_solve.specs.First.{first_bit};
ghost use Rattle.graph_solve.specs.Rows.{table};
ghost use Rattle.graph_solve.specs.Work.{IsTask, IsWork, edges_from, sum_to, to_come, weighed};

use crate::task::Task;
use crate::work::Work;
use bit_rows::Rows;
use graph_solve_problem::{FlowGraph, Problem};
use std::alloc::{AllocError, Global};
use std::collections::VecDeque;

/// Each block once: ascending, or where paths lead against execution descending. In this order most blocks wait no
/// second time.
fn first_queue(alloc: Global, blocks: u32, forward: bool) -> Result<VecDeque<u32>, AllocError>
    ensures within { IfOk result (λ queue. All (λ b. b < blocks) queue.items) }
    ensures each { IfOk result (λ queue. (block : ℕ) → block < blocks → Contains queue.items block) }
    ensures weighed { IfOk result (λ queue. (weight : ℕ → ℕ) → weighed weight queue.items ≡ sum_to weight blocks) }
{
    let mut queue = VecDeque::new(alloc);
    for block in 0..blocks {
        if forward {
            queue.push_back(block)?;
        } else {
            queue.push_front(block)?;
        }
    }
    Ok(queue)
}

/// The work as it begins, with the rows of the first values.
pub(crate) fn first_work<P: Problem>(
    alloc: Global,
    graph: &FlowGraph,
    problem: &P,
    task: &Task,
    values: Rows,
) -> Result<Work, AllocError>
    requires task { IsTask (P.flow problem.now) graph.now task.now }
    requires values { values
        ≡ table (length graph.now.ends.items + length graph.now.ends.items) (P.flow problem.now).width
        (first_bit graph.now.ends.items (P.flow problem.now).forward (P.flow problem.now).unites
        (P.flow problem.now).edge) }
    ensures state { IfOk result (λ work. IsWork (P.flow problem.now) graph.now work 0 []) }
    ensures to_come { IfOk result (λ work.
        to_come (edges_from task.now) task.now.height work ≡ length graph.now.edges.items * (task.now.height + 1)) }
{
    let forward = problem.forward();
    let queue = first_queue(alloc, task.blocks, forward)?;
    let waiting = vec![in alloc; true; graph.ends.len()]?;
    let counts = vec![in alloc; 0; graph.ends.len()]?;
    Ok(Work {
        values,
        queue,
        waiting,
        counts,
    })
}
