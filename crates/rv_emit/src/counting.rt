//! Whether 32 bits can count the instructions of each function, as the tables of writers do.

ghost use Rattle.std.specs.Prelude.{◌≡◌, ◌↔◌, ◌-◌, ◌^◌, IsTrue, length, map, min};
ghost use Rattle.std.specs.List.{AllByRecursion};
ghost use Rattle.graph_core.specs.Graphs.{block_view, graph_view};
ghost use Rattle.graph_core.specs.Validity.{total};
ghost use Rattle.rv_emit_runs.specs.Told.{IsCountable};

use graph_core::{Block, Graph};

/// How many instructions blocks have, notes too, or the greatest number where it is more.
fn instruction_count(blocks: &[Block]) -> u64
    ensures { result ≡ min (total (λ b. length b.instructions) (map block_view blocks.now)) (2 ^ 64 - 1) }
{
    blocks.iter().fold(
        0,
        |sum, block| sum.saturating_add(block.instructions.len() as u64),
    )
}

/// Whether 32 bits can count the instructions of a graph, notes too.
fn is_countable(graph: &Graph) -> bool
    ensures { IsTrue result ↔ IsCountable (graph_view graph.now) }
{
    instruction_count(&graph.blocks) <= 4_294_967_295
}

/// Whether 32 bits can count the instructions of each graph, notes too.
pub fn are_countable(graphs: &[Graph]) -> bool
    ensures { IsTrue result ↔ AllByRecursion IsCountable (map graph_view graphs.now) }
{
    graphs.iter().all(|graph| is_countable(graph))
}
