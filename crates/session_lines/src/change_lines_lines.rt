//! A line for each change.

ghost use Rattle.std.specs.Prelude.{◌≡◌, IfOk, map};
ghost use Rattle.c_tree.specs.Programs.{program_view};
ghost use Rattle.graph_core.specs.Graphs.{logged};
ghost use Rattle.session_lines.specs.ChangeLinesLines.{line_of, lines_of};

use crate::names::name_of;
use c_tree::Program;
use debug_records::Change;
use line_form::change_line;
use std::alloc::{AllocError, Global};

/// The line of a change, as that of this number.
fn line_of(
    alloc: Global,
    program: &Program,
    number: u32,
    change: &Change,
) -> Result<Vec<u8>, AllocError>
    ensures { IfOk result (λ line. line.items ≡ line_of (program_view program.now) number (logged change.now)) }
{
    let name = name_of(alloc, program, change.var.0)?;
    change_line(
        alloc,
        number,
        change.pass.letters(),
        change.kind,
        &name,
        change.place.0,
    )
}

/// The lines of changes of a program's unit, in order, numbered from 1. `AllocError` where memory for them was refused.
pub fn change_lines(
    alloc: Global,
    program: &Program,
    changes: &[Change],
) -> Result<Vec<Vec<u8>>, AllocError>
    ensures { IfOk result (λ lines.
        map (λ line. line.items) lines.items ≡ lines_of (program_view program.now) 1 (map logged changes.now)) }
{
    let mut lines = Vec::new(alloc);
    let mut number = 1u32;
    let mut left = changes;
    while let [change, rest @ ..] = left {
        lines.push(line_of(alloc, program, number, change)?)?;
        number = number.saturating_add(1);
        left = rest;
    }
    Ok(lines)
}
