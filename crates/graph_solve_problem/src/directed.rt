//! A graph in the direction of a problem's paths.

ghost use Rattle.std.specs.Prelude.{◌≡◌, ◌↔◌, ◌<◌, true, IfOk, length};
ghost use Rattle.graph_solve_problem.specs.Paths.{Begins};
ghost use Rattle.graph_solve_problem.specs.Solution.{control_flow};
ghost use Rattle.graph_solve_problem.specs.Rounds.{AreDirected, directed};

use crate::flow_graph::{Edge, FlowGraph};
use std::alloc::{AllocError, Global};

/// The edge as paths lead along it: as it is, or turned.
pub fn directed_edge(edge: Edge, forward: bool) -> Edge
    ensures { result ≡ directed forward edge }
{
    if forward {
        edge
    } else {
        Edge {
            from: edge.to,
            to: edge.from,
        }
    }
}

/// The edges as paths lead along them, by the blocks at their starts: ascending, or where they are turned descending.
///
/// In this order most values have fallen as far as they will when each edge was followed once.
pub(crate) fn directed_edges(
    alloc: Global,
    graph: &FlowGraph,
    forward: bool,
) -> Result<Vec<Edge>, AllocError>
    ensures { IfOk result (λ edges. AreDirected (control_flow graph.now) forward edges.items) }
{
    let mut edges = Vec::new(alloc);
    for edge in &graph.edges {
        edges.push(directed_edge(*edge, forward))?;
    }
    if forward {
        edges.sort()?;
    } else {
        edges.sort_by(|a, b| b.cmp(a))?;
    }
    Ok(edges)
}

/// Whether paths begin at the block.
pub fn begins(graph: &FlowGraph, forward: bool, block: usize) -> bool
    requires { block < length graph.now.ends.items }
    ensures { (result ≡ true) ↔ Begins (control_flow graph.now) forward block }
{
    if forward {
        block == 0
    } else {
        graph.ends[block]
    }
}
