//! Points of a graph, by their blocks and how many instructions stand behind them there.

ghost use Rattle.std.specs.Prelude.{◌≡◌, map, suc};
ghost use Rattle.graph_core.specs.Graphs.{graph_view, instruction_view};
ghost use Rattle.dead_pass_notes.specs.Spots.{left_at};

use graph_core::{End, Graph, Instr};

/// What is left of a block from a point on, behind which so many instructions stand; of a block that there is not,
/// nothing.
pub fn instructions_left<'a>(graph: &'a Graph, block: u32, left: usize) -> &'a [Instr]
    ensures { map instruction_view result.now ≡ left_at (graph_view graph.now) block left }
{
    match graph.blocks.get(block as usize) {
        None => &[],
        Some(found) => {
            let from = found.instructions.len().saturating_sub(left);
            &found.instructions[from..]
        }
    }
}

/// What is left of a block from the instruction on behind which so many stand; of a block that there is not, nothing.
pub fn instructions_from<'a>(graph: &'a Graph, block: u32, left: usize) -> &'a [Instr]
    ensures { map instruction_view result.now ≡ left_at (graph_view graph.now) block (suc left) }
{
    match graph.blocks.get(block as usize) {
        None => &[],
        Some(found) => {
            let longer = found.instructions.len().saturating_sub(left);
            let from = longer.saturating_sub(1);
            &found.instructions[from..]
        }
    }
}
