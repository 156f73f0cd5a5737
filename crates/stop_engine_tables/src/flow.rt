//! Where execution may go by an image, and what is assigned.

ghost use Rattle.std.specs.Prelude.{◌≡◌, IfOk, map};
ghost use Rattle.image_form.specs.Rules.{IsImage};
ghost use Rattle.image_form.specs.Views.{viewed};
ghost use Rattle.places.specs.Flow.{AreInOrder};
ghost use Rattle.stop_engine_tables.specs.Flow.{IsFlowOf};
ghost use Rattle.stop_engine_view.specs.Evidence.{assignment_of, step_of};

use debug_records::{Place, Var};
use image_form::View;
use places::{Assignment, FlowStep, FlowTable};
use std::alloc::{AllocError, Global};

/// The steps of an image.
fn flow_steps(alloc: Global, image: &View<'_>) -> Result<Vec<FlowStep>, AllocError>
    ensures { IfOk result (λ steps. steps.items ≡ map step_of (viewed image.now).flow) }
{
    let mut steps = Vec::new(alloc);
    for number in 0..image.flow_count() {
        let pair = image.flow_at(number);
        steps.push(FlowStep {
            from: Place(pair.from),
            to: Place(pair.to),
        })?;
    }
    Ok(steps)
}

/// The assignments of an image.
fn flow_assignments(alloc: Global, image: &View<'_>) -> Result<Vec<Assignment>, AllocError>
    ensures { IfOk result (λ assignments. assignments.items ≡ map assignment_of (viewed image.now).assigned) }
{
    let mut assignments = Vec::new(alloc);
    for number in 0..image.assigned_count() {
        let pair = image.assigned_at(number);
        assignments.push(Assignment {
            place: Place(pair.place),
            var: Var(pair.variable),
        })?;
    }
    Ok(assignments)
}

/// Where execution may go, and what is assigned, by the tables of an image. `AllocError` where memory for it was
/// refused.
pub fn flow_table(alloc: Global, image: &View<'_>) -> Result<FlowTable, AllocError>
    requires { IsImage (viewed image.now) }
    ensures flow { IfOk result (IsFlowOf (viewed image.now)) }
    ensures order { IfOk result (λ table. AreInOrder table.steps.items) }
{
    let steps = flow_steps(alloc, image)?;
    let assignments = flow_assignments(alloc, image)?;
    Ok(FlowTable { steps, assignments })
}
