//! A graph as its copies have it.

ghost use Rattle.std.specs.Prelude.{◌≡◌, ◌<◌, ◌^◌, IfOk, MatchOption, length};
ghost use Rattle.graph_core.specs.Graphs.{graph_view};
ghost use Rattle.copy_pass_rule.specs.Copying.{IsPropagated};
ghost use Rattle.copy_pass_rule.specs.Countable.{IsCountable};
ghost use Rattle.copy_pass_rule.specs.Found.{AreCopiesOf};

use crate::blocks::read_blocks;
use crate::copies::{Copies, CopyAt};
use crate::finding::find_copies;
use crate::flow::find_missing;
use graph_core::Graph;
use std::alloc::{AllocError, Global};

/// The graph that reads its names as these copies have it, where they are the copies that it then makes.
fn propagated_by(
    alloc: Global,
    graph: &Graph,
    copies: &[CopyAt],
) -> Result<Option<Graph>, AllocError>
    requires countable { IsCountable (graph_view graph.now) }
    requires few_copies { length copies.now < 2 ^ 31 }
    ensures { IfOk result (λ o. MatchOption o (AreCopiesOf (graph_view graph.now) copies.now → ⊥)
        (λ made. IsPropagated (graph_view graph.now) (graph_view made))) }
{
    let scalars = graph.scalars.len() as u32;
    let Some(copies) = Copies::new(alloc, copies, graph.blocks.len(), scalars)? else {
        return Ok(None);
    };
    let starts = find_missing(alloc, &copies, &graph.blocks)?;
    let Some(blocks) = read_blocks(alloc, &graph.scalars, &copies, &starts, &graph.blocks)? else {
        return Ok(None);
    };
    Ok(Some(Graph {
        entry: graph.entry,
        parameters: Vec::from_slice(alloc, &graph.parameters)?,
        scalars: Vec::from_slice(alloc, &graph.scalars)?,
        objects: Vec::from_slice(alloc, &graph.objects)?,
        name_count: graph.name_count,
        first_moved: graph.first_moved,
        blocks,
    }))
}

/// What copy propagation makes of a graph: by these copies, if they are those of the graph, else by those that are
/// found.
pub fn propagated(alloc: Global, graph: &Graph, copies: &[CopyAt]) -> Result<Graph, AllocError>
    requires countable { IsCountable (graph_view graph.now) }
    ensures { IfOk result (λ made. IsPropagated (graph_view graph.now) (graph_view made)) }
{
    if copies.len() < 0x8000_0000 {
        if let Some(made) = propagated_by(alloc, graph, copies)? {
            return Ok(made);
        }
    }
    let found = find_copies(alloc, graph)?;
    match propagated_by(alloc, graph, &found)? {
        Some(made) => Ok(made),
        None => unreachable!(),
    }
}
