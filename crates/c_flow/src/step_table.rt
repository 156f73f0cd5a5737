//! The table of a program's steps.

ghost use Rattle.std.specs.Prelude.{◌≡◌, ℕ, ◌+◌, ◌<◌, ◌^◌, ◌↔◌, IfOk, length, map};
ghost use Rattle.std.specs.List.{Contains};
ghost use Rattle.std.specs.List.Sorted.{IsNonDecreasing};
ghost use Rattle.places.specs.Flow.{AreInOrder};
ghost use Rattle.c_tree.specs.Programs.{program_view};
ghost use Rattle.c_places.specs.Places.{place_number_at, places_of_program};
ghost use Rattle.c_flow.specs.Flow.{steps_of_program};
ghost use Rattle.c_flow.specs.Tables.{place_number, step_between};

use crate::edge::Edge;
use crate::flow_edges::flow_of_program;
use crate::numbering::number_in;
use crate::order::put_in_order;
use c_tree::Program;
use debug_records::Place;
use places::FlowStep;
use std::alloc::{AllocError, Global};

/// The steps that edges are, among places at these positions, in order of the edges.
fn numbered_steps(
    alloc: Global,
    positions: &[u32],
    edges: &[Edge],
) -> Result<Vec<FlowStep>, AllocError>
    requires sorted { IsNonDecreasing positions.now }
    requires few { length positions.now + 1 < 2 ^ 32 }
    ensures { IfOk result (λ v. v.items ≡ map (step_between positions.now) edges.now) }
{
    let mut steps = Vec::new(alloc);
    for edge in edges {
        let from = number_in(positions, edge.from);
        let to = number_in(positions, edge.to);
        steps.push(FlowStep {
            from: Place(from),
            to: Place(to),
        })?;
    }
    Ok(steps)
}

/// The steps that edges are, among places at these positions, in order and each once.
fn steps_of(alloc: Global, positions: &[u32], edges: &[Edge]) -> Result<Vec<FlowStep>, AllocError>
    requires sorted { IsNonDecreasing positions.now }
    requires few { length positions.now + 1 < 2 ^ 32 }
    ensures ordered { IfOk result (λ v. AreInOrder v.items) }
    ensures exact { IfOk result
        (λ v. (s : FlowStep) → Contains v.items s ↔ Contains (map (step_between positions.now) edges.now) s) }
{
    let mut steps = numbered_steps(alloc, positions, edges)?;
    put_in_order(&mut steps);
    Ok(steps)
}

/// The steps of a program, whose places stand at these positions, in order and each once.
pub fn step_table(
    alloc: Global,
    program: &Program,
    positions: &[u32],
) -> Result<Vec<FlowStep>, AllocError>
    requires sorted { IsNonDecreasing positions.now }
    requires few { length positions.now + 1 < 2 ^ 32 }
    requires numbers { (at : ℕ) → place_number positions.now at
        ≡ place_number_at (places_of_program (program_view program.now)) at }
    ensures ordered { IfOk result (λ v. AreInOrder v.items) }
    ensures exact { IfOk result (λ v.
        (s : FlowStep) → Contains v.items s ↔ Contains (steps_of_program (program_view program.now)) s) }
{
    let edges = flow_of_program(alloc, program)?;
    let steps = steps_of(alloc, positions, &edges)?;
    Ok(steps)
}
