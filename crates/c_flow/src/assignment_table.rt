//! The table of a program's assignments.

ghost use Rattle.std.specs.Prelude.{◌≡◌, ℕ, ◌+◌, ◌<◌, ◌^◌, ◌↔◌, All, AllPairs, IfOk, length, map};
ghost use Rattle.std.specs.List.{Contains};
ghost use Rattle.std.specs.List.Sorted.{IsNonDecreasing};
ghost use Rattle.c_tree.specs.Programs.{program_view};
ghost use Rattle.places.specs.Flow.{IsAssignmentBefore};
ghost use Rattle.c_places.specs.Places.{place_number_at, places_of_program};
ghost use Rattle.c_flow.specs.Assigns.{assignments_of_program};
ghost use Rattle.c_flow.specs.Tables.{FewVariables, assignments_among, place_number};

use crate::assigned::{Assigned, assigned_by_program};
use crate::numbering::number_in;
use crate::order::put_in_order;
use crate::variables::variable_number;
use c_tree::Program;
use debug_records::{Place, Var};
use places::Assignment;
use std::alloc::{AllocError, Global};

/// The assignments that these are, among places at these positions, in the same order.
fn numbered_assignments(
    alloc: Global,
    program: &Program,
    positions: &[u32],
    all: &[Assigned],
) -> Result<Vec<Assignment>, AllocError>
    requires sorted { IsNonDecreasing positions.now }
    requires few { length positions.now + 1 < 2 ^ 32 }
    requires variables { FewVariables (program_view program.now) }
    ensures { IfOk result (λ v. v.items ≡ assignments_among (program_view program.now) positions.now all.now) }
{
    let mut assignments = Vec::new(alloc);
    for assigned in all {
        if let Some(number) = variable_number(program, assigned.object) {
            let place = number_in(positions, assigned.at);
            assignments.push(Assignment {
                place: Place(place),
                var: Var(number),
            })?;
        }
    }
    Ok(assignments)
}

/// The assignments that these are, among places at these positions, in order and each once.
fn assignments_of(
    alloc: Global,
    program: &Program,
    positions: &[u32],
    all: &[Assigned],
) -> Result<Vec<Assignment>, AllocError>
    requires sorted { IsNonDecreasing positions.now }
    requires few { length positions.now + 1 < 2 ^ 32 }
    requires variables { FewVariables (program_view program.now) }
    ensures ordered { IfOk result (λ v. AllPairs IsAssignmentBefore v.items) }
    ensures exact { IfOk result (λ v.
        (a : Assignment)
        → Contains v.items a ↔ Contains (assignments_among (program_view program.now) positions.now all.now) a) }
{
    let mut assignments = numbered_assignments(alloc, program, positions, all)?;
    put_in_order(&mut assignments);
    Ok(assignments)
}

/// The assignments of a program, whose places stand at these positions, in order and each once.
pub fn assignment_table(
    alloc: Global,
    program: &Program,
    positions: &[u32],
) -> Result<Vec<Assignment>, AllocError>
    requires sorted { IsNonDecreasing positions.now }
    requires few { length positions.now + 1 < 2 ^ 32 }
    requires numbers { (at : ℕ) → place_number positions.now at
        ≡ place_number_at (places_of_program (program_view program.now)) at }
    requires variables { FewVariables (program_view program.now) }
    requires parameters { All (λ f. f.first_variable + f.parameters < 2 ^ 32) program.now.functions.items }
    ensures ordered { IfOk result (λ v. AllPairs IsAssignmentBefore v.items) }
    ensures exact { IfOk result (λ v.
        (a : Assignment) → Contains v.items a ↔ Contains (assignments_of_program (program_view program.now)) a) }
{
    let all = assigned_by_program(alloc, program)?;
    let assignments = assignments_of(alloc, program, positions, &all)?;
    Ok(assignments)
}
