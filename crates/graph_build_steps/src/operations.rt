//! Operations whose results stand in names that are numbered as they are made.

ghost use Rattle.std.specs.Prelude.{◌≡◌, ℕ, IfOk, map};
ghost use Rattle.graph_core.specs.Graphs as form;
ghost use Rattle.graph_core.specs.Graphs.{block_view, location_view, operand_view};
ghost use Rattle.graph_build_names.specs.Names.{names_view};
ghost use Rattle.graph_build_layout.specs.Laid.{pair_view};
ghost use Rattle.graph_build_names.specs.Operands.{is_two};
ghost use Rattle.graph_build_names.specs.Scales.{shift_of};
ghost use Rattle.graph_build_steps.specs.Drafts.{arm, called_by, code_scaled_pair, compared, compared_pointers, compared_pointers_value, compared_value, computing, fork_view, forked, goal_of, held_location, hold_location, made_of, operated, renew, scale, unscaling};

use crate::comparisons::{branch_by, compare_by, compare_pointers_by};
use crate::{
    Computation, Draft, Fork, Goal, call, closed, compute, ending, follow, leaf, move_if,
    next_label, target, tested, truncation_to,
};
use c_tree::{Comparison, IntegerType};
use debug_records::Place;
use graph_build_layout::{Pair, behind_move};
use graph_build_names::{
    Names, is_narrow, is_scaled, is_two, is_two_pointers, located, operand_at, pick, scaled,
    shift_of,
};
use graph_core::{Block, Callee, End, Label, Location, Name, Operand};
use smallvec::SmallVec;
use std::alloc::{AllocError, Global};
use word_base::Operation;

/// One operation, whose result is for a goal.
pub fn operated(
    alloc: Global,
    names: &Names,
    goal: Goal,
    begun: u32,
    free: u32,
    computation: Computation,
) -> Result<Draft, AllocError>
    ensures { IfOk result
        (λ d. made_of d ≡ operated (names_view names.now) (goal_of goal) begun free (computing computation)) }
{
    let own = Name(pick(names, begun, free));
    let written = target(&goal, own);
    compute(follow(alloc, goal, own), written, computation)
}

/// A new value in its type, before what follows: by way of one more name where the type is narrow.
pub fn renew(
    of: IntegerType,
    target: Name,
    between: Name,
    computation: Computation,
    draft: Draft,
) -> Result<Draft, AllocError>
    ensures { IfOk result (λ d. made_of d ≡ renew of target.0 between.0 (computing computation) (made_of draft)) }
{
    if is_narrow(of) {
        let narrowed = Computation::Truncate(truncation_to(of), Operand::Name(between));
        let draft = compute(draft, target, narrowed)?;
        compute(draft, between, computation)
    } else {
        compute(draft, target, computation)
    }
}

/// An index is scaled to a distance in bytes if it has to be, before what follows.
pub fn scale(size: u64, index: Operand, free: u32, draft: Draft) -> Result<Draft, AllocError>
    ensures { IfOk result (λ d. made_of d ≡ scale size (operand_view index) free (made_of draft)) }
{
    if !is_scaled(size, index) {
        return Ok(draft);
    }
    let scaling = match shift_of(size) {
        Some(bits) => Computation::Operate(Operation::Sll, index, Operand::Constant(bits)),
        None => Computation::Operate(Operation::Mul, index, scaled(size, Operand::Constant(1), 0)),
    };
    compute(draft, Name(free), scaling)
}

/// How a distance in bytes becomes one in elements.
pub fn unscaling(size: u64, distance: Name) -> Computation
    ensures { (x : ℕ) → computing result x ≡ unscaling (shift_of size) size x distance.0 }
{
    let distance = Operand::Name(distance);
    match shift_of(size) {
        Some(bits) => Computation::Operate(Operation::Sra, distance, Operand::Constant(bits)),
        None => Computation::Operate(
            Operation::Div,
            distance,
            scaled(size, Operand::Constant(1), 0),
        ),
    }
}

/// A pointer that is moved by a scaled index.
pub fn scaled_pair(
    alloc: Global,
    names: &Names,
    goal: Goal,
    begun: u32,
    operation: Operation,
    size: u64,
    pointer: Operand,
    index: Operand,
    free: u32,
) -> Result<Draft, AllocError>
    ensures { IfOk result (λ d.
        made_of d ≡ code_scaled_pair (names_view names.now) (goal_of goal) begun operation size
        (operand_view pointer) (operand_view index) free) }
{
    let behind = behind_move(is_scaled(size, index), free)?;
    let moved = Computation::Operate(operation, pointer, scaled(size, index, free));
    let draft = operated(alloc, names, goal, begun, behind, moved)?;
    scale(size, index, free, draft)
}

/// A comparison of two integers as a value.
fn compared_value(
    alloc: Global,
    names: &Names,
    goal: Goal,
    signed: bool,
    operator: Comparison,
    begun: u32,
    pair: Pair,
) -> Result<Draft, AllocError>
    ensures { IfOk result (λ d.
        made_of d ≡ compared_value (names_view names.now) (goal_of goal) signed operator begun (is_two operator)
        (pair_view pair)) }
{
    let own = Name(pick(names, begun, behind_move(is_two(operator), pair.next)?));
    let between = Name(pick(names, begun, pair.next));
    let written = target(&goal, own);
    let draft = follow(alloc, goal, own);
    compare_by(
        operator, signed, written, between, pair.left, pair.right, draft,
    )
}

/// A comparison of two integers, as a condition or as a value.
pub fn compared(
    alloc: Global,
    names: &Names,
    goal: Goal,
    signed: bool,
    operator: Comparison,
    begun: u32,
    pair: Pair,
) -> Result<Draft, AllocError>
    ensures { IfOk result (λ d.
        made_of d ≡ compared (names_view names.now) (goal_of goal) signed operator begun (is_two operator)
        (pair_view pair)) }
{
    match goal {
        Goal::Either(one, other, inner) => {
            let end = branch_by(operator, signed, pair.left, pair.right, one, other);
            Ok(ending(alloc, end, inner))
        }
        Goal::To(want, draft) => {
            compared_value(
                alloc,
                names,
                Goal::To(want, draft),
                signed,
                operator,
                begun,
                pair,
            )
        }
        Goal::Unused(draft) => {
            compared_value(
                alloc,
                names,
                Goal::Unused(draft),
                signed,
                operator,
                begun,
                pair,
            )
        }
    }
}

/// A comparison of two pointers as a value.
fn compared_pointers_value(
    alloc: Global,
    names: &Names,
    goal: Goal,
    operator: Comparison,
    begun: u32,
    pair: Pair,
) -> Result<Draft, AllocError>
    ensures { IfOk result (λ d.
        made_of d ≡ compared_pointers_value (names_view names.now) (goal_of goal) operator begun (pair_view pair)) }
{
    let own = Name(pick(
        names,
        begun,
        behind_move(is_two_pointers(operator), pair.next)?,
    ));
    let between = Name(pick(names, begun, pair.next));
    let written = target(&goal, own);
    let draft = follow(alloc, goal, own);
    compare_pointers_by(operator, written, between, pair.left, pair.right, draft)
}

/// A comparison of two pointers, as a condition or as a value.
pub fn compared_pointers(
    alloc: Global,
    names: &Names,
    goal: Goal,
    operator: Comparison,
    begun: u32,
    pair: Pair,
) -> Result<Draft, AllocError>
    ensures { IfOk result (λ d.
        made_of d ≡ compared_pointers (names_view names.now) (goal_of goal) operator begun (pair_view pair)) }
{
    match goal {
        Goal::Either(one, other, inner) => {
            let end = branch_by(operator, false, pair.left, pair.right, one, other);
            Ok(ending(alloc, end, inner))
        }
        Goal::To(want, draft) => {
            compared_pointers_value(alloc, names, Goal::To(want, draft), operator, begun, pair)
        }
        Goal::Unused(draft) => {
            compared_pointers_value(alloc, names, Goal::Unused(draft), operator, begun, pair)
        }
    }
}

/// A block that writes a word to a name and goes on, behind those that stand.
fn arm(
    alloc: Global,
    place: Place,
    own: Name,
    word: u32,
    to: Label,
    inner: Vec<Block>,
) -> Result<Vec<Block>, AllocError>
    ensures { IfOk result (λ v. map block_view v.items ≡ arm place.0 own.0 word to.0 (map block_view inner.items)) }
{
    let draft = ending(alloc, End::Jump(to), inner);
    let draft = compute(draft, own, Computation::Move(Operand::Constant(word)))?;
    closed(place, draft)
}

/// Where a test leads: by its goal, or to two arms that write its truth to a name.
pub fn forked(
    alloc: Global,
    place: Place,
    top: u32,
    goal: Goal,
    own: Name,
) -> Result<Fork, AllocError>
    ensures { IfOk result (λ f. fork_view f ≡ forked place.0 top (goal_of goal) own.0) }
{
    match goal {
        Goal::Either(one, other, inner) => Ok(Fork { one, other, inner }),
        _ => {
            let after = leaf(alloc, goal, Operand::Name(own))?;
            let join = next_label(top, &after.inner);
            let inner = closed(place, after)?;
            let other = next_label(top, &inner);
            let inner = arm(alloc, place, own, 0, join, inner)?;
            let one = next_label(top, &inner);
            let inner = arm(alloc, place, own, 1, join, inner)?;
            Ok(Fork { one, other, inner })
        }
    }
}

/// A location that is moved to a name of its own if it has to be, before what follows.
pub fn hold_location(
    moved: bool,
    name: Name,
    location: Location,
    draft: Draft,
) -> Result<Draft, AllocError>
    ensures { IfOk result (λ d. made_of d ≡ hold_location moved name.0 (location_view location) (made_of draft)) }
{
    move_if(moved, name, operand_at(location), draft)
}

/// Where a location stands that was moved to a name if it had to be.
pub fn held_location(moved: bool, name: Name, location: Location) -> Location
    ensures { location_view result ≡ held_location moved name.0 (location_view location) }
{
    if moved {
        located(location, Operand::Name(name))
    } else {
        location
    }
}

/// A call: without a target where it gives nothing, or nothing uses what it gives.
pub fn called_by(
    alloc: Global,
    is_void: bool,
    goal: Goal,
    own: Name,
    callee: Callee,
    arguments: SmallVec<Operand, 4>,
) -> Result<Draft, AllocError>
    ensures { IfOk result (λ d.
        made_of d ≡ called_by is_void (goal_of goal) own.0 (λ x.
        form.Call x callee (map operand_view arguments.items))) }
{
    if is_void {
        let draft = leaf(alloc, goal, Operand::Constant(0))?;
        return call(None, callee, arguments, draft);
    }
    match goal {
        Goal::Unused(draft) => call(None, callee, arguments, draft),
        Goal::To(want, draft) => {
            let goal = Goal::To(want, draft);
            let written = target(&goal, own);
            call(Some(written), callee, arguments, follow(alloc, goal, own))
        }
        Goal::Either(one, other, inner) => {
            let draft = tested(alloc, Operand::Name(own), one, other, inner);
            call(Some(own), callee, arguments, draft)
        }
    }
}
