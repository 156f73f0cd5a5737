//! The solution of a problem over a graph by ordered sets, round by round until nothing changes: slow, and for tests.

ghost use Rattle.std.specs.Prelude.{◌≡◌, ◌≤◌, ◌^◌, IfOk, length};
ghost use Rattle.graph_solve_problem.specs.Solution.{AreMet, AreMetBehind, AreWithin, IsSolution, control_flow};
ghost use Rattle.graph_solve_problem.specs.Rounds.{AreFirst, AreMade, AreValues};

use crate::directed::{begins, directed_edges};
use crate::facts::Facts;
use crate::flow_graph::FlowGraph;
use crate::problem::Problem;
use crate::rounds::round;
use crate::solution::Solution;
use std::alloc::{AllocError, Global};

/// The edge's value where paths begin, and the top elsewhere.
fn first_values<P: Problem>(
    alloc: Global,
    graph: &FlowGraph,
    problem: &P,
    forward: bool,
) -> Result<Vec<Facts>, AllocError>
    requires { forward ≡ (P.flow problem.now).forward }
    ensures { IfOk result (λ values.
        AreFirst (P.flow problem.now) (control_flow graph.now) (length graph.now.ends.items) values.items) }
{
    let mut values = Vec::new(alloc);
    for block in 0..graph.ends.len() {
        if begins(graph, forward, block) {
            values.push(problem.edge(alloc)?)?;
        } else {
            values.push(problem.top(alloc)?)?;
        }
    }
    Ok(values)
}

/// At each block the meet of what comes to it along all paths.
fn values_met<P: Problem>(
    alloc: Global,
    graph: &FlowGraph,
    problem: &P,
    forward: bool,
) -> Result<Vec<Facts>, AllocError>
    requires direction { forward ≡ (P.flow problem.now).forward }
    requires within { AreWithin (length graph.now.ends.items) graph.now.edges.items }
    ensures each { IfOk result (λ values. length values.items ≡ length graph.now.ends.items) }
    ensures met { IfOk result (λ values. AreMet (P.flow problem.now) (control_flow graph.now) values.items) }
    ensures values { IfOk result (λ values. AreValues (P.flow problem.now) values.items) }
{
    let edges = directed_edges(alloc, graph, forward)?;
    let height = problem.height();
    let mut values = first_values(alloc, graph, problem, forward)?;
    let mut counts = vec![in alloc; 0; graph.ends.len()]?;
    while round(alloc, problem, height, &edges, &mut values, &mut counts)? {}
    Ok(values)
}

/// What the blocks make of the values that come to them.
fn values_made<P: Problem>(
    alloc: Global,
    problem: &P,
    values: &[Facts],
) -> Result<Vec<Facts>, AllocError>
    requires few { length values.now ≤ 2 ^ 32 }
    requires values { AreValues (P.flow problem.now) values.now }
    ensures { IfOk result (λ made. AreMade (P.flow problem.now) values.now (length values.now) made.items) }
{
    let mut made = Vec::new(alloc);
    for (block, value) in values.iter().enumerate() {
        made.push(problem.transfer(alloc, block as u32, value)?)?;
    }
    Ok(made)
}

/// At the start and at the end of each block the meet over all paths of the problem's direction that lead there.
pub fn solve_flow_plain<P: Problem>(
    alloc: Global,
    graph: &FlowGraph,
    problem: &P,
) -> Result<Solution, AllocError>
    requires few { length graph.now.ends.items ≤ 2 ^ 32 }
    requires within { AreWithin (length graph.now.ends.items) graph.now.edges.items }
    ensures { IfOk result (λ solution.
        IsSolution (P.flow problem.now) (control_flow graph.now) (length graph.now.ends.items) solution.starts.items
        solution.ends.items) }
{
    let forward = problem.forward();
    let met = values_met(alloc, graph, problem, forward)?;
    let made = values_made(alloc, problem, &met)?;
    if forward {
        Ok(Solution {
            starts: met,
            ends: made,
        })
    } else {
        Ok(Solution {
            starts: made,
            ends: met,
        })
    }
}
