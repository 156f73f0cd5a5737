//! How the values of objects change in place.

ghost use Rattle.std.specs.Prelude.{◌≡◌, IfOk};
ghost use Rattle.graph_core.specs.Graphs.{location_view, operand_view};
ghost use Rattle.graph_build_names.specs.Names.{names_view};
ghost use Rattle.graph_build_layout.specs.Laid.{laid_view, place_view};
ghost use Rattle.graph_build_steps.specs.Drafts.{goal_of, made_of};
ghost use Rattle.graph_build_steps.specs.Steps.{assigned_memory, changed, changed_element, left_memory, left_scalar, loaded_first, one_at, renewed_memory, renewed_scalar, takes_more};

use crate::{
    Computation, Draft, Goal, assign_goal, behind_old, compute, follow, held_location,
    hold_location, integer_element, keep_old, left_free, move_by, note, noted, operation_for,
    renew, scale, store, stored, target, use_of, use_old,
};
use c_tree::{Arithmetic, Direction, IntegerType};
use graph_build_layout::{Laid, PlaceLaid, behind_move};
use graph_build_names::{Names, is_narrow, is_scaled, pick, scaled};
use graph_core::{Element, Name, Operand};
use std::alloc::{AllocError, Global};

/// How an object's value changes by another value.
#[derive(Clone, Copy)]
pub enum Change {
    /// By an operator, of an object of the first type, computed in the second.
    Integer(Arithmetic, IntegerType, IntegerType),
    /// A pointer to elements of so many bytes is moved.
    Pointer(Direction, u64),
}

/// What an element of memory is that changes so.
fn changed_element(change: Change) -> Element
    ensures { result ≡ changed_element change }
{
    match change {
        Change::Integer(_, of, _) => integer_element(of),
        Change::Pointer(_, _) => Element::Word,
    }
}

/// Whether the change by a value takes one more name.
fn takes_more(change: Change, by: Operand) -> bool
    ensures { result ≡ takes_more change (operand_view by) }
{
    match change {
        Change::Integer(_, of, _) => is_narrow(of),
        Change::Pointer(_, size) => is_scaled(size, by),
    }
}

/// The new value, made of an old one, before what follows.
fn changed(
    change: Change,
    target: Name,
    between: Name,
    free: u32,
    old: Operand,
    by: Operand,
    draft: Draft,
) -> Result<Draft, AllocError>
    ensures { IfOk result (λ d.
        made_of d ≡ changed change target.0 between.0 free (operand_view old) (operand_view by) (made_of draft)) }
{
    match change {
        Change::Integer(operator, of, calculated) => {
            let operation = Computation::Operate(operation_for(operator, calculated), old, by);
            renew(of, target, between, operation, draft)
        }
        Change::Pointer(direction, size) => {
            let moved = Computation::Operate(move_by(direction), old, scaled(size, by, free));
            let draft = compute(draft, target, moved)?;
            scale(size, by, free, draft)
        }
    }
}

/// 1, behind so many names.
pub fn one_at(begun: u32) -> Laid
    ensures { laid_view result ≡ one_at begun }
{
    Laid {
        value: Operand::Constant(1),
        next: begun,
        top: begun,
    }
}

/// The new value of a scalar that a value changes, and its note.
pub fn renewed_scalar(
    alloc: Global,
    change: Change,
    name: u32,
    old: Operand,
    by: Laid,
    goal: Goal,
) -> Result<Draft, AllocError>
    ensures { IfOk result (λ d. made_of d ≡ renewed_scalar change name (operand_view old) (laid_view by) (goal_of goal)) }
{
    let draft = noted(alloc, Name(name), goal)?;
    changed(
        change,
        Name(name),
        Name(by.next),
        by.next,
        old,
        by.value,
        draft,
    )
}

/// The new value of what is in memory, which is stored.
pub fn renewed_memory(
    alloc: Global,
    names: &Names,
    change: Change,
    place: PlaceLaid,
    moved: bool,
    by: Laid,
    goal: Goal,
) -> Result<Draft, AllocError>
    ensures { IfOk result (λ d.
        made_of d ≡ renewed_memory (names_view names.now) change (place_view place) moved (laid_view by)
        (goal_of goal)) }
{
    let behind = behind_move(true, place.next)?;
    let free = behind_move(takes_more(change, by.value), by.next)?;
    let own = target(&goal, Name(pick(names, place.next, free)));
    let held = held_location(moved, Name(behind), place.location);
    let draft = stored(
        alloc,
        changed_element(change),
        held,
        Operand::Name(own),
        goal,
    )?;
    let old = Operand::Name(Name(place.next));
    let between = Name(pick(names, place.next, by.next));
    changed(change, own, between, by.next, old, by.value, draft)
}

/// The old value of what is in memory is loaded first; then its location is moved where later code writes it.
pub fn loaded_first(
    change: Change,
    place: PlaceLaid,
    moved: bool,
    draft: Draft,
) -> Result<Draft, AllocError>
    ensures { IfOk result (λ d. made_of d ≡ loaded_first change (place_view place) moved (made_of draft)) }
{
    let behind = behind_move(true, place.next)?;
    let held = hold_location(moved, Name(behind), place.location, draft)?;
    let load = Computation::Load(changed_element(change), place.location);
    compute(held, Name(place.next), load)
}

/// What the value of an assignment to memory is for.
pub fn assigned_memory(
    alloc: Global,
    goal: Goal,
    place: PlaceLaid,
    moved: bool,
    element: Element,
    value: Operand,
) -> Result<Goal, AllocError>
    ensures { IfOk result (λ g.
        goal_of g ≡ assigned_memory (goal_of goal) (place_view place) moved element (operand_view value)) }
{
    let asked = use_of(&goal);
    let held = held_location(moved, Name(place.next), place.location);
    let draft = stored(alloc, element, held, value, goal)?;
    Ok(assign_goal(asked, draft))
}

/// `a++` and `a--` of a scalar.
pub fn left_scalar(
    alloc: Global,
    change: Change,
    name: u32,
    begun: u32,
    goal: Goal,
) -> Result<Draft, AllocError>
    ensures { IfOk result (λ d. made_of d ≡ left_scalar change name begun (goal_of goal)) }
{
    let asked = use_of(&goal);
    let behind = behind_old(asked, Name(name), begun)?;
    let draft = use_old(alloc, goal, Name(name), Name(begun))?;
    let draft = note(Name(name), draft)?;
    let one = Operand::Constant(1);
    let old = Operand::Name(Name(name));
    let draft = changed(change, Name(name), Name(behind), behind, old, one, draft)?;
    keep_old(asked, Name(name), Name(begun), draft)
}

/// `a++` and `a--` of what is in memory.
pub fn left_memory(
    alloc: Global,
    change: Change,
    place: PlaceLaid,
    goal: Goal,
) -> Result<Draft, AllocError>
    ensures { IfOk result (λ d. made_of d ≡ left_memory change (place_view place) (goal_of goal)) }
{
    let one = Operand::Constant(1);
    let old = target(&goal, Name(place.next));
    let free = left_free(use_of(&goal), place.next)?;
    let own = Name(behind_move(takes_more(change, one), free)?);
    let draft = follow(alloc, goal, old);
    let draft = store(
        changed_element(change),
        place.location,
        Operand::Name(own),
        draft,
    )?;
    let draft = changed(
        change,
        own,
        Name(free),
        free,
        Operand::Name(old),
        one,
        draft,
    )?;
    let load = Computation::Load(changed_element(change), place.location);
    compute(draft, old, load)
}
