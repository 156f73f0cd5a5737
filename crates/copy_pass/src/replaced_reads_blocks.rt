//! What differs in a block.

ghost use Rattle.std.specs.Prelude.{◌≡◌, OnOk, length, map};
ghost use Rattle.graph_core.specs.Graphs.{block_view, end_view, instruction_view, scalar_view};
ghost use Rattle.graph_core.specs.Uses.{reads_of, reads_of_end};
ghost use Rattle.pass_law.specs.Changes.{Adds};
ghost use Rattle.copy_pass.specs.Points.{IsInBoth, IsReplacedAt, IsReplacedIn, placed};

use crate::names::{Point, add_names};
use debug_records::Place;
use graph_core::{Block, End, Instr, Scalar};
use pass_law::Case;
use std::alloc::{AllocError, Global};

/// The place that is in force in both graphs, if it is the same.
fn in_both(stood: Option<Place>, stands: Option<Place>) -> Option<Place>
    ensures { IsInBoth (placed stood) (placed stands) (placed result) }
{
    match (stood, stands) {
        (Some(before), Some(after)) => {
            if before.0 == after.0 {
                Some(before)
            } else {
                None
            }
        }
        _ => None,
    }
}

/// Appends the cases of an instruction at a point.
fn add_instruction(
    alloc: Global,
    scalars: &[Scalar],
    point: &Point,
    was: &Instr,
    is: &Instr,
    cases: &mut Vec<Case>,
) -> Result<(), AllocError>
    ensures { OnOk result
        (Adds (IsReplacedAt (map scalar_view scalars.now) (placed point.now.place) point.now.block point.now.index
        (reads_of (instruction_view was.now))
        (reads_of (instruction_view is.now))) cases.old.items cases.new.items) }
{
    let read_before = was.reads(alloc)?;
    let read_now = is.reads(alloc)?;
    add_names(scalars, point, &read_before, &read_now, cases)
}

/// Appends the cases of the end of a block.
fn add_end(
    alloc: Global,
    scalars: &[Scalar],
    point: &Point,
    was: &End,
    is: &End,
    cases: &mut Vec<Case>,
) -> Result<(), AllocError>
    ensures { OnOk result
        (Adds (IsReplacedAt (map scalar_view scalars.now) (placed point.now.place) point.now.block point.now.index
        (reads_of_end (end_view was.now)) (reads_of_end (end_view is.now))) cases.old.items cases.new.items) }
{
    let read_before = was.reads(alloc)?;
    let read_now = is.reads(alloc)?;
    add_names(scalars, point, &read_before, &read_now, cases)
}

/// Appends the cases of a block, which has as many instructions as before.
pub fn add_block(
    alloc: Global,
    scalars: &[Scalar],
    number: usize,
    was: &Block,
    is: &Block,
    cases: &mut Vec<Case>,
) -> Result<(), AllocError>
    requires alike { length is.now.instructions.items ≡ length was.now.instructions.items }
    ensures { OnOk result
        (Adds (IsReplacedIn (map scalar_view scalars.now) number (block_view was.now) (block_view is.now))
        cases.old.items cases.new.items) }
{
    let mut stood = was.place;
    let mut stands = is.place;
    for index in 0..was.instructions.len() {
        let before = &was.instructions[index];
        let after = &is.instructions[index];
        let point = Point {
            place: in_both(stood, stands),
            block: number,
            index,
        };
        add_instruction(alloc, scalars, &point, before, after, cases)?;
        stood = before.marker().or(stood);
        stands = after.marker().or(stands);
    }
    let point = Point {
        place: in_both(stood, stands),
        block: number,
        index: was.instructions.len(),
    };
    add_end(alloc, scalars, &point, &was.end, &is.end, cases)
}
