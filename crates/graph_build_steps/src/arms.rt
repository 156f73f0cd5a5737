//! What comes of objects and of the arms of `?:`.

ghost use Rattle.std.specs.Prelude.{◌≡◌, IfOk};
ghost use Rattle.graph_core.specs.Graphs as unit;
ghost use Rattle.graph_core.specs.Graphs.{operand_view};
ghost use Rattle.graph_build_names.specs.Names.{names_view};
ghost use Rattle.graph_build_steps.specs.Drafts.{with_inner_block, ending, goal_of, made_of};
ghost use Rattle.graph_build_steps.specs.Steps.{arm_goal, arm_use, arm_value, object_address};

use crate::site::Site;
use crate::{Computation, Draft, Goal, closed, ending, leaf, operated};
use c_tree::Object;
use graph_build_layout::Use;
use graph_build_names::object_of;
use graph_core::{End, Label, Name, Operand};
use std::alloc::{AllocError, Global};

/// The address of an object.
pub fn object_address(
    alloc: Global,
    site: &Site<'_>,
    object: Object,
    begun: u32,
    goal: Goal,
) -> Result<Draft, AllocError>
    ensures { IfOk result (λ d. made_of d ≡ object_address (names_view site.now.names.now) object begun (goal_of goal)) }
{
    let number = match object {
        Object::Automatic(variable) => {
            let number = object_of(site.names, variable).unwrap_or(0);
            let address = Computation::Address(number);
            return operated(alloc, site.names, goal, begun, begun, address);
        }
        Object::Static(number) => number,
        Object::Literal(number) => match site.names.statics.checked_add(number) {
            None => return Err(AllocError),
            Some(number) => number,
        },
    };
    let address = Operand::StaticAddress {
        object: number,
        offset: 0,
    };
    leaf(alloc, goal, address)
}

/// What an arm of `?:` is for, whose value stands in a name, or which has none.
pub fn arm_goal(is_void: bool, own: Name, draft: Draft) -> Goal
    ensures { goal_of result ≡ arm_goal is_void own.0 (made_of draft) }
{
    if is_void {
        Goal::Unused(draft)
    } else {
        Goal::To(Some(own), draft)
    }
}

/// What the layout of an arm is asked for.
pub fn arm_use(is_void: bool, own: u32) -> Use
    ensures { result ≡ arm_use is_void own }
{
    if is_void { Use::Nothing } else { Use::In(own) }
}

/// Where the value of `?:` stands.
pub fn arm_value(is_void: bool, own: Name) -> Operand
    ensures { operand_view result ≡ arm_value is_void own.0 }
{
    if is_void {
        Operand::Constant(0)
    } else {
        Operand::Name(own)
    }
}

/// A block that leads to another one, behind a draft that is closed in the place in force.
pub fn leading_to(
    alloc: Global,
    site: &Site<'_>,
    to: Label,
    draft: Draft,
) -> Result<Draft, AllocError>
    ensures { IfOk result (λ d. made_of d ≡ ending (unit.Jump to.0) (with_inner_block site.now.place.0 (made_of draft))) }
{
    let inner = closed(site.place, draft)?;
    Ok(ending(alloc, End::Jump(to), inner))
}
