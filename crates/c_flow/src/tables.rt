//! The table of a program's flow.

ghost use Rattle.std.specs.Prelude.{◌≡◌, ◌↔◌, AllPairs, IfOk, map};
ghost use Rattle.std.specs.List.{Contains};
ghost use Rattle.places.specs.declared.flow.Assignment.{Assignment};
ghost use Rattle.places.specs.declared.flow.FlowStep.{FlowStep};
ghost use Rattle.places.specs.Flow.{AreInOrder, IsAssignmentBefore};
ghost use Rattle.c_tree.specs.Programs.{program_view};
ghost use Rattle.c_places.specs.Places.{place_view, places_of_program};
ghost use Rattle.c_flow.specs.Assigns.{assignments_of_program};
ghost use Rattle.c_flow.specs.Flow.{steps_of_program};
ghost use Rattle.c_flow.specs.Tables.{Fits32};

use crate::assignment_table::assignment_table;
use crate::numbering::positions_of;
use crate::step_table::step_table;
use c_places::{Place, places_of_program};
use c_tree::Program;
use places::FlowTable;
use std::alloc::{AllocError, Global};

/// The steps and assignments of a program with these places.
fn flow_among(alloc: Global, program: &Program, places: &[Place]) -> Result<FlowTable, AllocError>
    requires fits { Fits32 (program_view program.now) }
    requires places { map place_view places.now ≡ places_of_program (program_view program.now) }
    ensures steps_in_order { IfOk result (λ t. AreInOrder t.steps.items) }
    ensures steps { IfOk result (λ t.
        (s : FlowStep) → Contains t.steps.items s ↔ Contains (steps_of_program (program_view program.now)) s) }
    ensures assignments_in_order { IfOk result (λ t. AllPairs IsAssignmentBefore t.assignments.items) }
    ensures assignments { IfOk result (λ t.
        (a : Assignment)
        → Contains t.assignments.items a ↔ Contains (assignments_of_program (program_view program.now)) a) }
{
    let positions = positions_of(alloc, places)?;
    let steps = step_table(alloc, program, &positions)?;
    let assignments = assignment_table(alloc, program, &positions)?;
    Ok(FlowTable { steps, assignments })
}

/// Where execution may go from the places of a program, and what they assign.
pub fn flow_table(alloc: Global, program: &Program) -> Result<FlowTable, AllocError>
    requires { Fits32 (program_view program.now) }
    ensures steps_in_order { IfOk result (λ t. AreInOrder t.steps.items) }
    ensures steps { IfOk result (λ t.
        (s : FlowStep) → Contains t.steps.items s ↔ Contains (steps_of_program (program_view program.now)) s) }
    ensures assignments_in_order { IfOk result (λ t. AllPairs IsAssignmentBefore t.assignments.items) }
    ensures assignments { IfOk result (λ t.
        (a : Assignment)
        → Contains t.assignments.items a ↔ Contains (assignments_of_program (program_view program.now)) a) }
{
    let places = places_of_program(alloc, program)?;
    let table = flow_among(alloc, program, &places)?;
    Ok(table)
}
