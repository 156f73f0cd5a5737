//! The variables that are visible at a stop, as a session shows them.

ghost use Rattle.std.specs.Prelude.{◌≡◌, IfOk, map};
ghost use Rattle.image_form.specs.Rules.{IsImage};
ghost use Rattle.image_form.specs.Views.{viewed};
ghost use Rattle.stop_engine.specs.Shown.{or_no_locals};
ghost use Rattle.stop_engine.specs.Visible.{visible_at, visible_line, visible_of, visible_of_row};
ghost use Rattle.stop_engine_tables.specs.Tables.{AreTablesOf};
ghost use Rattle.stop_engine_texts.specs.Rows.{IsRow};

use image_form::{View, VisibleRow};
use line_form::no_locals_line;
use rv_machine::Machine;
use std::alloc::{AllocError, Global};
use stop_engine_tables::Tables;
use stop_engine_texts::{Shown, row_shown, rows_at, shown_line};

/// A variable that is visible at a stop.
#[derive(Drop)]
pub struct Local {
    pub name: Vec<u8>,
    /// What is shown of it.
    pub shown: Shown,
}

/// The variable of a row. `AllocError` where memory for it was refused.
fn visible_of_row(
    alloc: Global,
    image: &View<'_>,
    machine: &Machine,
    tables: &Tables,
    row: VisibleRow,
) -> Result<Local, AllocError>
    requires image { IsImage (viewed image.now) }
    requires row { IsRow (viewed image.now) row }
    requires tables { AreTablesOf (viewed image.now) tables.now }
    ensures { IfOk result (λ local. visible_of local ≡ visible_of_row (viewed image.now) machine.now row) }
{
    let name = tables.names.variable(image, row.variable as usize);
    Ok(Local {
        name: name.to_vec(alloc)?,
        shown: row_shown(alloc, image, machine, tables, row)?,
    })
}

/// The variables that are visible at a place, each by its own row, in the order of the rows. `AllocError` where memory
/// for them was refused.
pub fn visible_at(
    alloc: Global,
    image: &View<'_>,
    machine: &Machine,
    tables: &Tables,
    place: u32,
) -> Result<Vec<Local>, AllocError>
    requires image { IsImage (viewed image.now) }
    requires tables { AreTablesOf (viewed image.now) tables.now }
    ensures { IfOk result (λ locals. map visible_of locals.items ≡ visible_at (viewed image.now) machine.now place) }
{
    let rows = rows_at(image, place);
    let mut locals = Vec::new(alloc);
    for number in rows.start..rows.end {
        let row = image.row_at(number);
        let local = visible_of_row(alloc, image, machine, tables, row)?;
        locals.push(local)?;
    }
    Ok(locals)
}

/// The lines of variables, or the one line where there is none. `AllocError` where memory for them was refused.
pub fn locals_lines(alloc: Global, locals: &[Local]) -> Result<Vec<Vec<u8>>, AllocError>
    ensures { IfOk result (λ lines.
        map (λ line. line.items) lines.items ≡ or_no_locals (map visible_line (map visible_of locals.now))) }
{
    let mut lines = Vec::new(alloc);
    for local in locals {
        let line = shown_line(alloc, &local.name, &local.shown)?;
        lines.push(line)?;
    }
    if lines.is_empty() {
        lines.push(no_locals_line(alloc)?)?;
    }
    Ok(lines)
}
