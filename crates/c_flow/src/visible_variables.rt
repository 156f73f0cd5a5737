//! Which variables are visible at places.

ghost use Rattle.std.specs.Prelude.{◌≡◌, ◌<◌, ◌^◌, IfOk, map};
ghost use Rattle.c_tree.specs.Programs.{program_view};
ghost use Rattle.c_places.specs.Places.{place_view};
ghost use Rattle.c_flow.specs.Tables.{FewVariables};
ghost use Rattle.c_flow.specs.Names.{AreClasses};
ghost use Rattle.c_flow.specs.Rows.{numbers_of, flow_row, row_view};

use crate::automatic_number;
use crate::visibility::visible_by_class;
use c_places::Place;
use c_tree::Program;
use debug_records::Var;
use places::PlaceRow;
use std::alloc::{AllocError, Global};

/// Automatic variables by their numbers among all variables.
fn numbers_of(alloc: Global, program: &Program, variables: &[usize]) -> Result<Vec<Var>, AllocError>
    requires { FewVariables (program_view program.now) }
    ensures { IfOk result (λ v. map (λ x. x.0) v.items ≡ numbers_of (program_view program.now) variables.now) }
{
    let mut found = Vec::new(alloc);
    for variable in variables {
        if let Some(number) = automatic_number(program, *variable) {
            found.push(Var(number))?;
        }
    }
    Ok(found)
}

/// The row of a place in the table. The classes are those of the automatic variables by their names.
pub fn row_of(
    alloc: Global,
    program: &Program,
    classes: &[usize],
    place: &Place,
) -> Result<PlaceRow, AllocError>
    requires classes { AreClasses (program_view program.now).automatics classes.now }
    requires variables { FewVariables (program_view program.now) }
    requires function { place.now.function < 2 ^ 32 }
    ensures { IfOk result (λ r. row_view r ≡ flow_row (program_view program.now) (place_view place.now)) }
{
    let scope = visible_by_class(alloc, &program.automatics, classes, &place.scope)?;
    Ok(PlaceRow {
        position: place.spot.at,
        line: place.spot.line,
        function: place.function as u32,
        is_entry: place.is_entry,
        visible: numbers_of(alloc, program, &scope)?,
    })
}
