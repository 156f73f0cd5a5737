//! The order in which the blocks of a graph are looked at.

use crate::lists::{flag, put_flag};
use graph_core::{Block, End};
use std::alloc::{AllocError, Global};

/// A block on the way to the one that is looked at, and how many of the blocks to which it leads were tried.
#[derive(Clone, Copy)]
struct Visit {
    block: u32,
    tried: u32,
}

/// A block to which an end leads, by its number among these, if there are so many.
pub fn successor(end: &End, number: u32) -> Option<u32> {
    match end {
        End::Return(_) => None,
        End::Jump(label) => { if number == 0 { Some(label.0) } else { None } }
        End::Branch {
            then,
            otherwise,
            ..
        } => match number {
            0 => Some(then.0),
            1 => Some(otherwise.0),
            _ => None,
        },
    }
}

/// The next block to which the visited one leads, if one is left.
fn next_of(blocks: &[Block], visit: Visit) -> Option<u32> {
    match blocks.get(visit.block as usize) {
        Some(block) => successor(&block.end, visit.tried),
        None => None,
    }
}

/// Goes one step further: to the next block that was not seen, or back from one that has none.
fn go_on(
    blocks: &[Block],
    seen: &mut [bool],
    way: &mut Vec<Visit>,
    left: &mut Vec<u32>,
) -> Result<(), AllocError> {
    let Some(visit) = way.pop() else {
        return Ok(());
    };
    match next_of(blocks, visit) {
        None => left.push(visit.block)?,
        Some(next) => {
            way.push(Visit {
                block: visit.block,
                tried: visit.tried.saturating_add(1),
            })?;
            if !flag(seen, next) {
                put_flag(seen, next, true);
                way.push(Visit {
                    block: next,
                    tried: 0,
                })?;
            }
        }
    }
    Ok(())
}

/// The blocks that some path from the first one reaches, each before those to which it leads but where a way leads
/// back.
pub fn reached_in_order(alloc: Global, blocks: &[Block]) -> Result<Vec<u32>, AllocError> {
    let mut seen = vec![in alloc; false; blocks.len()]?;
    put_flag(&mut seen, 0, true);
    let mut way = Vec::new(alloc);
    way.push(Visit { block: 0, tried: 0 })?;
    let mut left = Vec::new(alloc);
    for _ in 0..blocks.len().saturating_add(1).saturating_mul(4) {
        go_on(blocks, &mut seen, &mut way, &mut left)?;
    }
    left.reverse();
    Ok(left)
}
