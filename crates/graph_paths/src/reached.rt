//! The blocks that paths reach.

ghost use Rattle.std.specs.Prelude.{◌≡◌, ℕ, ◌<◌, ◌^◌, IfOk, OnOk, length, map, true};
ghost use Rattle.graph_core.specs.Graphs.{block_view};
ghost use Rattle.graph_paths.specs.Reached.{AreLed};
ghost use Rattle.graph_paths.specs.Flood.{AreSameBut};
ghost use Rattle.graph_paths.specs.PathMarksTable.{bits_of};

use crate::flood::{Transfer, settle};
use crate::marks::Marks;
use graph_core::Block;
use std::alloc::{AllocError, Global};

/// Blocks that let one fact pass: that some way leads to them.
#[derive(Drop)]
struct Leading<'a> {
    blocks: &'a [Block],
}

impl Transfer for Leading<'_> {
    ghost use Rattle.graph_paths.specs.Reached.{leading};

    ghost course = { λ all. leading (map block_view all.blocks.now) };

    fn forward(&self) -> bool {
        true
    }

    fn is_open(&self, _block: u32) -> bool {
        true
    }

    fn pass(&self, _block: u32, _rows: &mut Marks, _row: u32) -> Result<(), AllocError> {
        Ok(())
    }
}

/// In a row the blocks that are told in a column.
fn turned(alloc: Global, column: &Marks, count: u32) -> Result<Marks, AllocError>
    requires rows { count ≡ column.now.count }
    requires width { column.now.width ≡ 1 }
    ensures { IfOk result (λ row. (n : ℕ) → bits_of row 0 n ≡ bits_of column.now n 0) }
{
    let mut row = Marks::new(alloc, 1, count)?;
    for number in 0..count {
        row.put(0, number, column.get(number, 0));
    }
    Ok(row)
}

/// The blocks to which some way leads from the first one, as the bits of a row.
pub fn reached_blocks(alloc: Global, all: &[Block]) -> Result<Marks, AllocError>
    requires few { length all.now < 2 ^ 32 }
    ensures { IfOk result (λ marks. AreLed (map block_view all.now) (bits_of marks 0)) }
{
    let count = all.len().max(1) as u32;
    let mut comes = Marks::new(alloc, count, 1)?;
    let mut leaves = Marks::new(alloc, count, 1)?;
    comes.put(0, 0, true);
    let leading = Leading { blocks: all };
    settle(&leading, all, &[], &mut comes, &mut leaves)?;
    let row = turned(alloc, &comes, count)?;
    Ok(row)
}
