//! What values are for, and what follows them.

ghost use Rattle.std.specs.Prelude.{◌≡◌, IfOk, map};
ghost use Rattle.graph_core.specs.Graphs.{block_view, operand_view, location_view};
ghost use Rattle.graph_build_steps.specs.Drafts.{assign_goal, behind_old, follow, goal_of, keep_old, leaf, left_free, made_of, noted, stored, target, tested, use_of, use_old, used, valued};

use crate::draft::{Computation, Draft, compute, ending, note, store};
use graph_build_layout::{Use, behind_move};
use graph_core::{Block, Comparison, Element, End, Label, Location, Name, Operand};
use std::alloc::{AllocError, Global};

/// What a value is for.
#[derive(Drop)]
pub enum Goal {
    /// To stand in a name, or where it stands, and what follows.
    To(Option<Name>, Draft),
    /// For nothing, and what follows.
    Unused(Draft),
    /// To be tested: where to go if it is not 0, and where if it is, and the inner blocks that stand.
    Either(Label, Label, Vec<Block>),
}

/// What the layout of a value is asked for.
pub fn use_of(goal: &Goal) -> Use
    ensures { result ≡ use_of (goal_of goal.now) }
{
    match goal {
        Goal::To(None, _) => Use::Anywhere,
        Goal::To(Some(name), _) => Use::In(name.0),
        Goal::Unused(_) => Use::Nothing,
        Goal::Either(_, _, _) => Use::Tested,
    }
}

/// A value is tested: it is not 0.
pub fn tested(alloc: Global, value: Operand, one: Label, other: Label, inner: Vec<Block>) -> Draft
    ensures { made_of result ≡ tested (operand_view value) one.0 other.0 (map block_view inner.items) }
{
    ending(
        alloc,
        End::Branch {
            comparison: Comparison::NotEqual,
            left: value,
            right: Operand::Constant(0),
            then: one,
            otherwise: other,
        },
        inner,
    )
}

/// What follows a value that stands in an operand.
pub fn leaf(alloc: Global, goal: Goal, value: Operand) -> Result<Draft, AllocError>
    ensures { IfOk result (λ d. made_of d ≡ leaf (goal_of goal) (operand_view value)) }
{
    match goal {
        Goal::To(None, draft) | Goal::Unused(draft) => Ok(draft),
        Goal::To(Some(name), draft) => compute(draft, name, Computation::Move(value)),
        Goal::Either(one, other, inner) => Ok(tested(alloc, value, one, other, inner)),
    }
}

/// The name that an operation writes, if it would have this one of its own.
pub fn target(goal: &Goal, own: Name) -> Name
    ensures { result.0 ≡ target (goal_of goal.now) own.0 }
{
    match goal {
        Goal::To(Some(name), _) => *name,
        _ => own,
    }
}

/// What follows once the target is written.
pub fn follow(alloc: Global, goal: Goal, own: Name) -> Draft
    ensures { made_of result ≡ follow (goal_of goal) own.0 }
{
    match goal {
        Goal::To(_, draft) | Goal::Unused(draft) => draft,
        Goal::Either(one, other, inner) => tested(alloc, Operand::Name(own), one, other, inner),
    }
}

/// A scalar that has been written is noted, and then its value is used.
pub fn noted(alloc: Global, scalar: Name, goal: Goal) -> Result<Draft, AllocError>
    ensures { IfOk result (λ d. made_of d ≡ noted scalar.0 (goal_of goal)) }
{
    let draft = leaf(alloc, goal, Operand::Name(scalar))?;
    note(scalar, draft)
}

/// What a value is for that stands in this operand: tested once it stands, if it is to be.
pub fn valued(alloc: Global, goal: Goal, value: Operand) -> Goal
    ensures { goal_of result ≡ valued (goal_of goal) (operand_view value) }
{
    match goal {
        Goal::Either(one, other, inner) => {
            Goal::To(None, tested(alloc, value, one, other, inner))
        }
        _ => goal,
    }
}

/// A value that is stored, and what follows it.
pub fn stored(
    alloc: Global,
    element: Element,
    to: Location,
    value: Operand,
    goal: Goal,
) -> Result<Draft, AllocError>
    ensures { IfOk result (λ d. made_of d ≡ stored element (location_view to) (operand_view value) (goal_of goal)) }
{
    let draft = match goal {
        Goal::To(_, draft) | Goal::Unused(draft) => draft,
        Goal::Either(one, other, inner) => tested(alloc, value, one, other, inner),
    };
    store(element, to, value, draft)
}

/// The old value of a scalar is kept where it is wanted, before what follows.
pub fn keep_old(asked: Use, scalar: Name, free: Name, draft: Draft) -> Result<Draft, AllocError>
    ensures { IfOk result (λ d. made_of d ≡ keep_old asked scalar.0 free.0 (made_of draft)) }
{
    let old = Computation::Move(Operand::Name(scalar));
    match asked {
        Use::Nothing => Ok(draft),
        Use::In(name) => {
            if name == scalar.0 {
                compute(draft, free, old)
            } else {
                compute(draft, Name(name), old)
            }
        }
        _ => compute(draft, free, old),
    }
}

/// What follows once a scalar has been written whose old value was kept.
pub fn use_old(alloc: Global, goal: Goal, scalar: Name, free: Name) -> Result<Draft, AllocError>
    ensures { IfOk result (λ d. made_of d ≡ use_old (goal_of goal) scalar.0 free.0) }
{
    match goal {
        Goal::Unused(draft) | Goal::To(None, draft) => Ok(draft),
        Goal::To(Some(name), draft) => {
            if name.0 == scalar.0 {
                compute(draft, scalar, Computation::Move(Operand::Name(free)))
            } else {
                Ok(draft)
            }
        }
        Goal::Either(one, other, inner) => {
            Ok(tested(alloc, Operand::Name(free), one, other, inner))
        }
    }
}

/// The first name that is free behind the old value of a scalar.
pub fn behind_old(asked: Use, scalar: Name, free: u32) -> Result<u32, AllocError>
    ensures { IfOk result (λ next. next ≡ behind_old asked scalar.0 free) }
{
    let is_kept = match asked {
        Use::Nothing => false,
        Use::In(name) => name == scalar.0,
        _ => true,
    };
    behind_move(is_kept, free)
}

/// What the right side of an assignment to memory is for.
pub fn assign_goal(asked: Use, draft: Draft) -> Goal
    ensures { goal_of result ≡ assign_goal asked (made_of draft) }
{
    match asked {
        Use::In(name) => Goal::To(Some(Name(name)), draft),
        _ => Goal::To(None, draft),
    }
}

/// The name for the new value behind the old value of what is in memory.
pub fn left_free(asked: Use, free: u32) -> Result<u32, AllocError>
    ensures { IfOk result (λ next. next ≡ left_free asked free) }
{
    match asked {
        Use::In(_) => Ok(free),
        _ => behind_move(true, free),
    }
}

/// What a value is for that is worked with although nothing uses it.
pub fn used(goal: Goal) -> Goal
    ensures { goal_of result ≡ used (goal_of goal) }
{
    match goal {
        Goal::Unused(draft) => Goal::To(None, draft),
        _ => goal,
    }
}
