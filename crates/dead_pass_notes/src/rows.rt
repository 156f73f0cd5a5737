//! What is stale at the starts of blocks.

ghost use Rattle.std.specs.Prelude.{◌≡◌, ℕ, ◌+◌, ◌<◌, ◌^◌, IfOk, List, OnOk, length};
ghost use Rattle.places.specs.declared.flow.Assignment.{Assignment};
ghost use Rattle.graph_core.specs.Graphs.{graph_view};
ghost use Rattle.dead_pass_rule.specs.Asking.{is_going};
ghost use Rattle.dead_pass_rule.specs.Certified.{AreIdle};
ghost use Rattle.dead_pass_rule.specs.Walks.{IsTable, turn_of};
ghost use Rattle.graph_paths.specs.Flood.{AreSameBut};
ghost use Rattle.graph_paths.specs.Reached.{AreLed};
ghost use Rattle.graph_paths.specs.PathMarksTable.{bits_of};
ghost use Rattle.dead_pass_notes.specs.Rows.{AreAll, AreStale};

use crate::walks::walk;
use graph_core::Graph;
use graph_paths::{Marks, Transfer, settle};
use std::alloc::{AllocError, Global};

/// The names that are stale, as facts that flow as execution goes.
#[derive(Drop)]
struct Staleness<'a> {
    graph: &'a Graph,
    turns: &'a [Vec<u32>],
    reached: &'a Marks,
}

impl Transfer for Staleness<'_> {
    ghost use Rattle.dead_pass_notes.specs.Rows.{going_stale};

    ghost course = { λ s. going_stale (graph_view s.graph.now) (is_going (turn_of s.turns.now))
        (bits_of s.reached.now 0) };

    fn forward(&self) -> bool {
        true
    }

    fn is_open(&self, block: u32) -> bool {
        self.reached.get(0, block)
    }

    fn pass(&self, block: u32, rows: &mut Marks, row: u32) -> Result<(), AllocError> {
        let block_of = &self.graph.blocks[block as usize];
        let names = self.graph.name_count;
        walk(self.turns, row, names, rows, block, &block_of.instructions);
        Ok(())
    }
}

/// The names that are stale at the starts of blocks: for each block that paths reach those that some path brings there
/// stale, and, where the turns tell what goes, no others. The blocks are visited in this order first.
pub fn stale_names(
    alloc: Global,
    graph: &Graph,
    turns: &[Vec<u32>],
    reached: &Marks,
    order: &[u32],
) -> Result<Marks, AllocError>
    requires few { length graph.now.blocks.items + 2 < 2 ^ 32 }
    requires led { AreLed (graph_view graph.now).blocks (bits_of reached.now 0) }
    ensures table { IfOk result (λ marks. IsTable (length graph.now.blocks.items) graph.now.name_count marks) }
    ensures stale { IfOk result (λ marks.
        (assignments : List Assignment) → AreIdle assignments (graph_view graph.now) (is_going (turn_of turns.now))
        → AreStale assignments (graph_view graph.now) graph.now.name_count marks) }
    ensures all { IfOk result
        (λ marks. AreAll (graph_view graph.now) (is_going (turn_of turns.now)) (bits_of reached.now 0)
        graph.now.name_count (bits_of marks)) }
{
    let count = graph.blocks.len() as u32;
    let mut starts = Marks::new(alloc, count + 2, graph.name_count)?;
    let mut ends = Marks::new(alloc, count, graph.name_count)?;
    let staleness = Staleness {
        graph,
        turns,
        reached,
    };
    settle(&staleness, &graph.blocks, order, &mut starts, &mut ends)?;
    Ok(starts)
}
