//! The tables of changes, of flow and of assignments.

ghost use Rattle.std.specs.Prelude.{◌≡◌, IfOk, map};
ghost use Rattle.graph_core.specs.Graphs.{logged};
ghost use Rattle.image_build_tables.specs.Tables.{assigned_pair, change_record, flow_pair};

use crate::number_of;
use debug_records::Change as Logged;
use image_form::{AssignedPair, Change, FlowPair};
use places::{Assignment, FlowStep};
use std::alloc::{AllocError, Global};

/// The changes of a log.
pub fn changes_of(alloc: Global, log: &[Logged]) -> Result<Vec<Change>, AllocError>
    ensures { IfOk result (λ v. v.items ≡ map change_record (map logged log.now)) }
{
    let mut changes = Vec::new(alloc);
    for change in log {
        changes.push(Change {
            pass_length: number_of(change.pass.letters().len()),
            kind: change.kind,
            place: change.place.0,
            variable: change.var.0,
        })?;
    }
    Ok(changes)
}

/// The pairs of places between which execution goes.
pub fn flow_of(alloc: Global, steps: &[FlowStep]) -> Result<Vec<FlowPair>, AllocError>
    ensures { IfOk result (λ v. v.items ≡ map flow_pair steps.now) }
{
    let mut pairs = Vec::new(alloc);
    for step in steps {
        pairs.push(FlowPair {
            from: step.from.0,
            to: step.to.0,
        })?;
    }
    Ok(pairs)
}

/// The pairs of places and the variables that they assign.
pub fn assigned_of(
    alloc: Global,
    assignments: &[Assignment],
) -> Result<Vec<AssignedPair>, AllocError>
    ensures { IfOk result (λ v. v.items ≡ map assigned_pair assignments.now) }
{
    let mut pairs = Vec::new(alloc);
    for assignment in assignments {
        pairs.push(AssignedPair {
            place: assignment.place.0,
            variable: assignment.var.0,
        })?;
    }
    Ok(pairs)
}
