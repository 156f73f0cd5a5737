//! The lines that a session prints.

ghost use Rattle.std.specs.Prelude.{◌≡◌, IfOk};
ghost use Rattle.image_form.specs.Rules.{IsImage};
ghost use Rattle.image_form.specs.Views.{viewed};
ghost use Rattle.stop_engine.specs.Halting.{IsHaltOf, halt_line};
ghost use Rattle.stop_engine_tables.specs.Tables.{AreTablesOf};

use crate::halt::Halt;
use image_form::View;
use line_form::{depth_line, exit_line, fault_line, limit_line, stop_line};
use std::alloc::{AllocError, Global};
use stop_engine_tables::Tables;

/// The line that says where a run halted. `AllocError` where memory for the text was refused.
pub fn halt_line(
    alloc: Global,
    image: &View<'_>,
    tables: &Tables,
    limit: u64,
    halt: Halt,
) -> Result<Vec<u8>, AllocError>
    requires image { IsImage (viewed image.now) }
    requires tables { AreTablesOf (viewed image.now) tables.now }
    requires place { IsHaltOf (viewed image.now) halt }
    ensures { IfOk result (λ text. text.items ≡ halt_line (viewed image.now) limit halt) }
{
    match halt {
        Halt::At { place, depth } => {
            let at = image.place_at(place as usize - 1);
            let function = tables.names.function(image, at.function as usize);
            Ok(stop_line(alloc, place, at.line, function, depth)?)
        }
        Halt::Exited(status) => Ok(exit_line(alloc, status)?),
        Halt::Depth => Ok(depth_line(alloc)?),
        Halt::Fault(address) => Ok(fault_line(alloc, address)?),
        Halt::Limit => Ok(limit_line(alloc, limit)?),
    }
}
