//! Which blocks of a graph some path reaches.

ghost use Rattle.std.specs.Prelude.{◌≡◌, ℕ, ◌<◌, ◌^◌, IfOk, false, length, map, slice_index_or, true};
ghost use Rattle.graph_core.specs.Graphs.{block_view, end_view};
ghost use Rattle.graph_core.specs.Paths.{Among};
ghost use Rattle.graph_core.specs.Uses.{targets_of};
ghost use Rattle.motion_pass_problems.specs.Facts.{AreReached};
ghost use Rattle.motion_pass_problems.specs.Flowing.{HasEdge};

use graph_core::{Block, End};
use graph_paths::reached_blocks;
use motion_pass_points::is_flagged;
use std::alloc::{AllocError, Global};

/// Which blocks some path from the first one reaches.
pub fn reached_flags(alloc: Global, blocks: &[Block]) -> Result<Vec<bool>, AllocError>
    requires few { length blocks.now < 2 ^ 32 }
    ensures { IfOk result (λ flags. AreReached (map block_view blocks.now) (λ n. slice_index_or flags.items n false)) }
{
    let led = reached_blocks(alloc, blocks)?;
    let mut flags = Vec::new(alloc);
    for number in 0..blocks.len() as u32 {
        flags.push(led.get(0, number))?;
    }
    Ok(flags)
}

/// Whether an end leads to the first block.
fn leads_to_first(end: &End) -> bool
    ensures never { result ≡ false → Among 0 (targets_of (end_view end.now)) → ⊥ }
    ensures leads { result ≡ true → Among 0 (targets_of (end_view end.now)) }
{
    match end {
        End::Return(_) => false,
        End::Jump(to) => to.0 == 0,
        End::Branch {
            then,
            otherwise,
            ..
        } => then.0 == 0 || otherwise.0 == 0,
    }
}

/// Whether a block that paths reach leads to the first.
pub fn comes_back(blocks: &[Block], reached: &[bool]) -> bool
    ensures never { result ≡ false → (m : ℕ)
        → HasEdge (map block_view blocks.now) (λ n. slice_index_or reached.now n false) m 0 → ⊥ }
    ensures comes { result ≡ true → (m : ℕ)
        × HasEdge (map block_view blocks.now) (λ n. slice_index_or reached.now n false) m 0 }
{
    for number in 0..blocks.len() {
        let block = &blocks[number];
        if is_flagged(reached, number) {
            let back = leads_to_first(&block.end);
            if back {
                return true;
            }
        }
    }
    false
}
