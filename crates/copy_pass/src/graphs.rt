//! Copies of a graph.

use crate::blocks::Walk;
use crate::regions::{Regions, number_of};
use crate::sources::Sources;
use copy_pass_rule::CopyAt;
use graph_core::{Block, Scalar};
use graph_paths::reached_in_order;
use std::alloc::{AllocError, Global};

/// The copies of scalars in the blocks of a graph that some path reaches, as they are once each read is of what its
/// name is a copy of.
///
/// A copy that reaches a point on every path stands before it on each, and so does the block of the copy in the order
/// in which the blocks are
/// gone along: what the copy itself reads is settled before it is told where it reaches.
pub fn copies_of(
    alloc: Global,
    scalars: &[Scalar],
    blocks: &[Block],
) -> Result<Vec<CopyAt>, AllocError> {
    let reached = reached_in_order(alloc, blocks)?;
    let mut walk = Walk {
        scalars,
        regions: Regions::new(alloc, blocks, number_of(scalars.len()), &reached)?,
        sources: Sources::new(alloc, scalars.len())?,
        copies: Vec::new(alloc),
    };
    for number in &reached {
        if let Some(block) = blocks.get(*number as usize) {
            walk.visit(*number, block)?;
        }
    }
    Ok(walk.copies)
}
