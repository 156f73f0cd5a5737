//! What differs in graphs.

ghost use Rattle.std.specs.Prelude.{◌≡◌, IfOk, OnOk, map};
ghost use Rattle.graph_core.specs.Graphs.{graph_view};
ghost use Rattle.pass_law.specs.declared.cases.Case as declared-case;
ghost use Rattle.pass_law.specs.Changes.{Adds, AreCasesOf, IsCaseOf, Numbered};
ghost use Rattle.copy_pass.specs.Reads.{IsReplacedRead};

use crate::replaced_reads_blocks::add_block;
use graph_core::Graph;
use pass_law::Case;
use std::alloc::{AllocError, Global};

/// Appends the cases of a block of a function.
fn add_block_of(
    alloc: Global,
    was: &Graph,
    is: &Graph,
    number: usize,
    cases: &mut Vec<Case>,
) -> Result<(), AllocError>
    ensures { OnOk result
        (Adds (Numbered (IsReplacedRead (graph_view was.now) (graph_view is.now))
        (λ (c : declared-case.Case). c.block) number) cases.old.items cases.new.items) }
{
    let Some(before) = was.blocks.get(number) else {
        return Ok(());
    };
    let Some(after) = is.blocks.get(number) else {
        return Ok(());
    };
    if after.instructions.len() != before.instructions.len() {
        return Ok(());
    }
    add_block(alloc, &was.scalars, number, before, after, cases)
}

/// Appends the cases of a function.
fn add_graph(
    alloc: Global,
    was: &Graph,
    is: &Graph,
    cases: &mut Vec<Case>,
) -> Result<(), AllocError>
    ensures { OnOk result
        (Adds (IsReplacedRead (graph_view was.now) (graph_view is.now)) cases.old.items cases.new.items) }
{
    for number in 0..was.blocks.len() {
        add_block_of(alloc, was, is, number, cases)?;
    }
    Ok(())
}

/// Appends the cases of a function, by its number.
fn add_function(
    alloc: Global,
    was: &[Graph],
    is: &[Graph],
    number: usize,
    cases: &mut Vec<Case>,
) -> Result<(), AllocError>
    ensures { OnOk result
        (Adds (λ c. IsCaseOf IsReplacedRead (map graph_view was.now) (map graph_view is.now) (number, c))
        cases.old.items cases.new.items) }
{
    let Some(before) = was.get(number) else {
        return Ok(());
    };
    let Some(after) = is.get(number) else {
        return Ok(());
    };
    add_graph(alloc, before, after, cases)
}

/// The reads that differ between graphs before and after, function by function: each that was of a variable, where both
/// have a place in force. They come in no
/// particular order.
///
/// `AllocError` where memory was refused.
pub fn replaced_reads(alloc: Global, was: &[Graph], is: &[Graph]) -> Result<Vec<Case>, AllocError>
    ensures { IfOk result
        (λ cases. AreCasesOf IsReplacedRead (map graph_view was.now) (map graph_view is.now) cases.items) }
{
    let mut cases = Vec::new(alloc);
    for number in 0..was.len() {
        add_function(alloc, was, is, number, &mut cases)?;
    }
    Ok(cases)
}
