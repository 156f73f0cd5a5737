//! The blocks to which ways lead, in order.

ghost use Rattle.std.specs.Prelude.{◌≡◌, ◌<◌, ◌^◌, [], IfOk, OnOk, false, length, map, replicate};
ghost use Rattle.graph_core.specs.Graphs.{block_view, end_view};
ghost use Rattle.graph_core.specs.Uses.{targets_of};
ghost use Rattle.copy_pass_rule.specs.Order.{AreAdded, IsAdded, IsInOrder};

use graph_core::{Block, End};
use std::alloc::{AllocError, Global};

/// Puts a block behind the others, if it is none of them.
fn add(order: &mut Vec<u32>, has: &mut [bool], label: u32) -> Result<(), AllocError>
    ensures { OnOk result (IsAdded label order.old.items has.old order.new.items has.new) }
{
    if (label as usize) < has.len() && !has[label as usize] {
        has[label as usize] = true;
        order.push(label)?;
    }
    Ok(())
}

/// Puts behind the others the blocks to which an end leads, where they are none of them.
fn add_targets(order: &mut Vec<u32>, has: &mut [bool], end: &End) -> Result<(), AllocError>
    ensures { OnOk result (AreAdded (targets_of (end_view end.now)) order.old.items has.old order.new.items has.new) }
{
    match end {
        End::Return(_) => {}
        End::Jump(label) => add(order, has, label.0)?,
        End::Branch {
            then,
            otherwise,
            ..
        } => {
            add(order, has, then.0)?;
            add(order, has, otherwise.0)?;
        }
    }
    Ok(())
}

/// Puts the first block into an empty order, and behind it all to which ways lead, each behind one that leads to it.
fn put_all(order: &mut Vec<u32>, has: &mut [bool], blocks: &[Block]) -> Result<(), AllocError>
    requires some { 0 < length blocks.now }
    requires few { length blocks.now < 2 ^ 32 }
    requires empty { order.old.items ≡ [] }
    requires none { has.old ≡ replicate (length blocks.now) false }
    ensures { OnOk result (IsInOrder (map block_view blocks.now) order.new.items) }
{
    add(order, has, 0)?;
    let mut turn = 0usize;
    while turn < order.len() {
        let number = order[turn];
        add_targets(order, has, &blocks[number as usize].end)?;
        turn += 1;
    }
    Ok(())
}

/// The blocks to which some way leads from the first one, each but that one behind one that leads to it.
pub fn blocks_in_order(alloc: Global, blocks: &[Block]) -> Result<Vec<u32>, AllocError>
    requires some { 0 < length blocks.now }
    requires few { length blocks.now < 2 ^ 32 }
    ensures { IfOk result (λ order. IsInOrder (map block_view blocks.now) order.items) }
{
    let mut has = vec![in alloc; false; blocks.len()]?;
    let mut order = Vec::new(alloc);
    put_all(&mut order, &mut has, blocks)?;
    Ok(order)
}
