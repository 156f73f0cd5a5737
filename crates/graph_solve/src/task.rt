//! What the solver knows of a problem and a graph before it begins.

ghost use Rattle.std.specs.Prelude.{◌≡◌, ◌+◌, ◌<◌, ◌^◌, [], length, IfOk, map};
ghost use Rattle.graph_solve_problem.specs.Rounds.{directed};
ghost use Rattle.graph_solve.specs.Rows.{table};
ghost use Rattle.graph_solve_problem.specs.Solution.{AreWithin};
ghost use Rattle.graph_solve.specs.Work.{AreTargets, IsTask};

use bit_rows::Rows;
use graph_solve_problem::{FlowGraph, Problem, directed_edge};
use std::alloc::{AllocError, Global};

/// The problem in rows of bits, and the graph in the direction of its paths.
#[derive(Drop)]
pub(crate) struct Task {
    pub blocks: u32,
    pub height: u32,
    pub unites: bool,
    /// For each block the facts that it keeps.
    pub kept: Rows,
    /// For each block the facts that it makes.
    pub written: Rows,
    /// For each block those that paths lead to from it.
    pub targets: Vec<Vec<u32>>,
}

/// As many empty lists as blocks.
fn no_targets(alloc: Global, blocks: usize) -> Result<Vec<Vec<u32>>, AllocError>
    ensures { IfOk result (λ targets. AreTargets [] blocks targets.items) }
{
    let mut targets = Vec::new(alloc);
    for _block in 0..blocks {
        targets.push(Vec::new(alloc))?;
    }
    Ok(targets)
}

/// For each block those that paths lead to from it.
pub(crate) fn targets_of(
    alloc: Global,
    graph: &FlowGraph,
    forward: bool,
) -> Result<Vec<Vec<u32>>, AllocError>
    requires { AreWithin (length graph.now.ends.items) graph.now.edges.items }
    ensures { IfOk result (λ targets.
        AreTargets (map (directed forward) graph.now.edges.items) (length graph.now.ends.items) targets.items) }
{
    let mut targets = no_targets(alloc, graph.ends.len())?;
    for edge in &graph.edges {
        let edge = directed_edge(*edge, forward);
        targets[edge.from as usize].push(edge.to)?;
    }
    Ok(targets)
}

/// What the solver knows of a problem and a graph, with the rows of what each block keeps and makes.
pub(crate) fn task_of<P: Problem>(
    alloc: Global,
    graph: &FlowGraph,
    problem: &P,
    blocks: u32,
    kept: Rows,
    written: Rows,
) -> Result<Task, AllocError>
    requires blocks { blocks ≡ length graph.now.ends.items }
    requires few { length graph.now.ends.items + length graph.now.ends.items < 2 ^ 32 }
    requires kept { kept ≡ table (length graph.now.ends.items) (P.flow problem.now).width (P.flow problem.now).kept }
    requires written { written
        ≡ table (length graph.now.ends.items) (P.flow problem.now).width (P.flow problem.now).written }
    requires within { AreWithin (length graph.now.ends.items) graph.now.edges.items }
    ensures { IfOk result (λ task. IsTask (P.flow problem.now) graph.now task) }
{
    let height = problem.height();
    let unites = problem.unites();
    let targets = targets_of(alloc, graph, problem.forward())?;
    Ok(Task {
        blocks,
        height,
        unites,
        kept,
        written,
        targets,
    })
}
