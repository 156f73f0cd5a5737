//! What goes of a block.

ghost use Rattle.std.specs.Prelude.{OnOk, map};
ghost use Rattle.graph_core.specs.Graphs.{block_view, scalar_view};
ghost use Rattle.pass_law.specs.Changes.{Adds};
ghost use Rattle.dead_pass_rule.specs.Asking.{is_going};
ghost use Rattle.dead_pass_rule.specs.Walks.{turn_of};
ghost use Rattle.dead_pass_notes.specs.Points.{IsRemovedIn};

use crate::writes::{Point, add_write};
use dead_pass_rule::turn_at;
use graph_core::{Block, Scalar};
use pass_law::Case;
use std::alloc::AllocError;

/// Appends the cases of a block.
pub fn add_block(
    scalars: &[Scalar],
    turns: &[Vec<u32>],
    number: u32,
    block: &Block,
    cases: &mut Vec<Case>,
) -> Result<(), AllocError>
    ensures { OnOk result
        (Adds (IsRemovedIn (map scalar_view scalars.now) (is_going (turn_of turns.now) number) number
        (block_view block.now)) cases.old.items cases.new.items) }
{
    let mut place = block.place;
    for index in 0..block.instructions.len() {
        let instruction = &block.instructions[index];
        let left = block.instructions.len() - 1 - index;
        let point = Point {
            place,
            block: number,
            index,
            goes: turn_at(turns, number, left) != 0,
        };
        add_write(scalars, &point, instruction.target(), cases)?;
        place = instruction.marker().or(place);
    }
    Ok(())
}
