//! The copies of a graph, found one after the other.

ghost use Rattle.std.specs.Prelude.{◌≡◌, ◌≢◌, ◌≤◌, ℕ, suc, ◌+◌, ◌<◌, ◌^◌, [], IfOk, MatchOption, OnOk, Some, length, map, slice_get};
ghost use Rattle.graph_core.specs.Graphs.{block_view, graph_view, instruction_view};
ghost use Rattle.copy_pass_rule.specs.declared.copies.CopyAt as declared-copy;
ghost use Rattle.copy_pass_rule.specs.Countable.{IsCountable};
ghost use Rattle.copy_pass_rule.specs.Flow.{line_of, missing_where};
ghost use Rattle.copy_pass_rule.specs.Along.{FindsIn, IsPoint, Makes, MakesNone, counted_in};
ghost use Rattle.copy_pass_rule.specs.Found.{AreCopiesOf, AreNumerable};
ghost use Rattle.copy_pass_rule.specs.Order.{IsInOrder};
ghost use Rattle.graph_paths.specs.PathMarksTable.{bits_of};

use crate::blocks::copy_of;
use crate::copies::{Copies, CopyAt};
use crate::flow::{find_missing, step};
use crate::order::blocks_in_order;
use crate::reading::Reader;
use graph_core::{Block, Graph, Instr};
use graph_paths::Marks;
use std::alloc::{AllocError, Global};

/// Goes in a row over the instructions of a block until the next one has so many behind it.
fn walk_to(
    copies: &Copies<'_>,
    marks: &mut Marks,
    row: u32,
    number: u32,
    block: &Block,
    left: usize,
)
    requires row { row < marks.old.count }
    requires width { marks.old.width ≡ length copies.now.all.now + 1 }
    requires narrow { length copies.now.all.now + 1 < 2 ^ 32 }
    ensures walked { (k : ℕ) (c : declared-copy.CopyAt) → slice_get copies.now.all.now k ≡ Some c
        → bits_of marks.new row (suc k) ≡ missing_where c number (suc left) (line_of (block_view block.now)).writes
        (bits_of marks.old row (suc k)) }
    ensures same_count { marks.new.count ≡ marks.old.count }
    ensures same_width { marks.new.width ≡ marks.old.width }
{
    let mut ahead: &[Instr] = &block.instructions;
    while let [instruction, rest @ ..] = ahead {
        if rest.len() == left {
            return;
        }
        let target = instruction.target();
        step(copies, marks, row, number, rest.len(), target);
        ahead = rest;
    }
}

/// The copy that an instruction of a block makes, as it is read by the copies that were found before.
fn copy_at(
    alloc: Global,
    graph: &Graph,
    found: &[CopyAt],
    number: u32,
    instruction: &Instr,
    left: usize,
) -> Result<Option<CopyAt>, AllocError>
    requires countable { IsCountable (graph_view graph.now) }
    requires numerable { AreNumerable found.now (length (graph_view graph.now).blocks)
        (length (graph_view graph.now).scalars) }
    requires few { length found.now < 2 ^ 31 }
    requires stands { IsPoint (graph_view graph.now) number left (instruction_view instruction.now) }
    ensures { IfOk result (λ o.
        MatchOption o (MakesNone (graph_view graph.now) number left (instruction_view instruction.now) found.now)
        (Makes (graph_view graph.now) number left (instruction_view instruction.now) found.now)) }
{
    let scalars = graph.scalars.len() as u32;
    let Some(copies) = Copies::new(alloc, found, graph.blocks.len(), scalars)? else {
        unreachable!()
    };
    let starts = find_missing(alloc, &copies, &graph.blocks)?;
    let mut walk = Marks::new(alloc, 1, found.len() as u32 + 1)?;
    walk.copy_from(0, &starts, number);
    let block = &graph.blocks[number as usize];
    walk_to(&copies, &mut walk, 0, number, block, left);
    let reader = Reader {
        copies: &copies,
        row: 0,
        marks: &walk,
    };
    let made = reader.read_instruction(alloc, instruction)?;
    match copy_of(&graph.scalars, &made) {
        Some((target, source)) => Ok(Some(CopyAt {
            block: number,
            left,
            target,
            source,
        })),
        None => Ok(None),
    }
}

/// Finds the copies that the instructions of a block make.
fn find_in(
    alloc: Global,
    graph: &Graph,
    found: &mut Vec<CopyAt>,
    number: u32,
) -> Result<(), AllocError>
    requires countable { IsCountable (graph_view graph.now) }
    requires numerable { AreNumerable found.old.items (length (graph_view graph.now).blocks)
        (length (graph_view graph.now).scalars) }
    requires few { length found.old.items + counted_in (slice_get (graph_view graph.now).blocks number) < 2 ^ 31 }
    requires new_block { (k : ℕ) (c : declared-copy.CopyAt) → slice_get found.old.items k ≡ Some c → c.block ≢ number }
    requires block { number < length (graph_view graph.now).blocks }
    ensures found { OnOk result (FindsIn (graph_view graph.now) number found.old.items found.new.items) }
    ensures count { OnOk result
        (length found.new.items
        ≤ length found.old.items + counted_in (slice_get (graph_view graph.now).blocks number)) }
{
    let block = &graph.blocks[number as usize];
    let mut ahead: &[Instr] = &block.instructions;
    while let [instruction, rest @ ..] = ahead {
        if let Some(copy) = copy_at(alloc, graph, &*found, number, instruction, rest.len())? {
            found.push(copy)?;
        }
        ahead = rest;
    }
    Ok(())
}

/// Finds the copies that the instructions of blocks in order make, where none is found yet.
fn find_along(
    alloc: Global,
    graph: &Graph,
    order: &[u32],
    found: &mut Vec<CopyAt>,
) -> Result<(), AllocError>
    requires countable { IsCountable (graph_view graph.now) }
    requires in_order { IsInOrder (graph_view graph.now).blocks order.now }
    requires none { found.old.items ≡ [] }
    ensures copies { OnOk result (AreCopiesOf (graph_view graph.now) found.new.items) }
    ensures few { OnOk result (length found.new.items < 2 ^ 31) }
{
    for number in order {
        find_in(alloc, graph, found, *number)?;
    }
    Ok(())
}

/// The copies that a graph makes once each read is of what its name is a copy of.
///
/// They are found one after the other, each as it is read by those that were found before: a copy that reaches a point
/// on every path stands before it
/// on the way by which the order comes there.
pub fn find_copies(alloc: Global, graph: &Graph) -> Result<Vec<CopyAt>, AllocError>
    requires countable { IsCountable (graph_view graph.now) }
    ensures copies { IfOk result (λ found. AreCopiesOf (graph_view graph.now) found.items) }
    ensures few { IfOk result (λ found. length found.items < 2 ^ 31) }
{
    let order = blocks_in_order(alloc, &graph.blocks)?;
    let mut found = Vec::new(alloc);
    find_along(alloc, graph, &order, &mut found)?;
    Ok(found)
}
