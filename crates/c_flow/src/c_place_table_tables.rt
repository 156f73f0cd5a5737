//! The table of a program's places.

ghost use Rattle.std.specs.Prelude.{◌≡◌, ◌<◌, ◌^◌, All, IfOk, map};
ghost use Rattle.c_tree.specs.Programs.{program_view};
ghost use Rattle.c_places.specs.Places.{place_view};
ghost use Rattle.c_flow.specs.Tables.{FewVariables, Fits32};
ghost use Rattle.c_flow.specs.Rows.{flow_row, row_view, rows_of_program};

use crate::visibility::name_classes;
use crate::visible_variables::row_of;
use c_places::{Place, places_of_program};
use c_tree::Program;
use places::PlaceTable;
use std::alloc::{AllocError, Global};

/// The table of these places.
fn table_of(alloc: Global, program: &Program, places: &[Place]) -> Result<PlaceTable, AllocError>
    requires variables { FewVariables (program_view program.now) }
    requires functions { All (λ p. p.function < 2 ^ 32) places.now }
    ensures { IfOk result (λ t.
        map row_view t.rows.items ≡ map (flow_row (program_view program.now)) (map place_view places.now)) }
{
    let classes = name_classes(alloc, &program.automatics)?;
    let by_name = classes.as_slice();
    let mut rows = Vec::new(alloc);
    for place in places {
        let row = row_of(alloc, program, by_name, place)?;
        rows.push(row)?;
    }
    Ok(PlaceTable { rows })
}

/// The places of a program with the variables visible there.
pub fn place_table(alloc: Global, program: &Program) -> Result<PlaceTable, AllocError>
    requires { Fits32 (program_view program.now) }
    ensures { IfOk result (λ t. map row_view t.rows.items ≡ rows_of_program (program_view program.now)) }
{
    let places = places_of_program(alloc, program)?;
    let table = table_of(alloc, program, &places)?;
    Ok(table)
}
