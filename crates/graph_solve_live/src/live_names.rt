//! The names that are read later.

ghost use Rattle.std.specs.Prelude.{◌≡◌, ◌<◌, ◌^◌, IfOk, OnOk, length};
ghost use Rattle.graph_core.specs.Graphs.{end_view, graph_view, instruction_view};
ghost use Rattle.graph_core.specs.Uses.{numbers, reads_of_end};
ghost use Rattle.graph_solve_live.specs.Live.{AreLive, before_one, with_names};
ghost use Rattle.graph_solve_live.specs.LiveRows.{ends_of, starts_of};

use crate::flow::Living;
use crate::rows::{LiveRows, sets_of};
use graph_core::{Block, End, Graph, Instr, Name};
use graph_paths::{Marks, settle};
use graph_solve_problem::{Facts, Solution};
use std::alloc::{AllocError, Global};

/// Puts the names below the width into the set.
fn add_names(names: &[Name], width: u32, live: &mut Facts) -> Result<(), AllocError>
    ensures { OnOk result (live.new ≡ with_names width (numbers names.now) live.old) }
{
    for name in names {
        if name.0 < width {
            live.add(name.0)?;
        }
    }
    Ok(())
}

/// From the names that are live behind an instruction to those that are live before it. So the names that are live
/// inside a block are known from those at its end.
pub fn live_before(
    alloc: Global,
    instruction: &Instr,
    width: u32,
    live: &mut Facts,
) -> Result<(), AllocError>
    ensures { OnOk result (live.new ≡ before_one width (instruction_view instruction.now) live.old) }
{
    if let Some(target) = instruction.target() {
        live.remove(target.0);
    }
    add_names(&instruction.reads(alloc)?, width, live)
}

/// From the names that are live behind the end of a block to those that are live before it, behind the last
/// instruction.
pub fn live_before_end(
    alloc: Global,
    end: &End,
    width: u32,
    live: &mut Facts,
) -> Result<(), AllocError>
    ensures { OnOk result (live.new ≡ with_names width (reads_of_end (end_view end.now)) live.old) }
{
    add_names(&end.reads(alloc)?, width, live)
}

/// The numbers of so many blocks, the last first.
fn from_last(alloc: Global, count: u32) -> Result<Vec<u32>, AllocError> {
    let mut order = Vec::new(alloc);
    for passed in 0..count {
        order.push(count - 1 - passed)?;
    }
    Ok(order)
}

/// The names that are read later, at the start and at the end of each block (Hennessy 1982): those that some path from
/// there on reads before it writes them. As rows of bits, in time linear in their words where no loop is deep.
///
/// Notes read nothing. The call writes the parameters before the entry.
pub fn live_rows(alloc: Global, graph: &Graph) -> Result<LiveRows, AllocError>
    requires few { length graph.now.blocks.items < 2 ^ 31 }
    ensures live { IfOk result (λ live. AreLive (graph_view graph.now) (starts_of live) (ends_of live)) }
    ensures blocks { IfOk result (λ live. live.blocks ≡ length graph.now.blocks.items) }
    ensures width { IfOk result (λ live. live.width ≡ graph.now.name_count) }
{
    let all: &[Block] = &graph.blocks;
    let blocks = all.len() as u32;
    let width = graph.name_count;
    let order = from_last(alloc, blocks)?;
    let mut ends = Marks::new(alloc, blocks, width)?;
    let mut starts = Marks::new(alloc, blocks, width)?;
    let living = Living {
        alloc,
        names: width,
        all,
    };
    settle(&living, all, &order, &mut ends, &mut starts)?;
    Ok(LiveRows {
        starts,
        ends,
        blocks,
        width,
    })
}

/// The same as sets.
pub fn live(alloc: Global, graph: &Graph) -> Result<Solution, AllocError>
    requires few { length graph.now.blocks.items < 2 ^ 31 }
    ensures { IfOk result (λ solution. AreLive (graph_view graph.now) solution.starts.items solution.ends.items) }
{
    let live = live_rows(alloc, graph)?;
    let starts = sets_of(alloc, &live.starts, live.blocks, live.width)?;
    let ends = sets_of(alloc, &live.ends, live.blocks, live.width)?;
    Ok(Solution { starts, ends })
}
