//! What goes of a graph.

ghost use Rattle.std.specs.Prelude.{◌<◌, ◌^◌, List, OnOk, length};
ghost use Rattle.places.specs.declared.flow.Assignment.{Assignment};
ghost use Rattle.graph_core.specs.Graphs.{graph_view};
ghost use Rattle.pass_law.specs.Changes.{Adds};
ghost use Rattle.dead_pass_rule.specs.Asking.{is_going};
ghost use Rattle.dead_pass_rule.specs.Certified.{AreIdle};
ghost use Rattle.dead_pass_rule.specs.Walks.{turn_of};
ghost use Rattle.dead_pass_notes.specs.Writes.{IsRemovedWrite};

use crate::blocks::add_block;
use graph_core::Graph;
use pass_law::Case;
use std::alloc::AllocError;

/// Appends the cases of a function: the assignments of scalars that go, where the turns tell what goes. They come block
/// by block. `AllocError` where memory was refused.
pub fn removed_writes(
    graph: &Graph,
    turns: &[Vec<u32>],
    cases: &mut Vec<Case>,
) -> Result<(), AllocError>
    requires few { length graph.now.blocks.items < 2 ^ 32 }
    ensures { OnOk result ((assignments : List Assignment)
        → AreIdle assignments (graph_view graph.now) (is_going (turn_of turns.now))
        → Adds (IsRemovedWrite assignments (graph_view graph.now)) cases.old.items cases.new.items) }
{
    for number in 0..graph.blocks.len() as u32 {
        let block = &graph.blocks[number as usize];
        add_block(&graph.scalars, turns, number, block, cases)?;
    }
    Ok(())
}
