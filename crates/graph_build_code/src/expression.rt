//! The code of expressions, from their ends: each function puts the code of a tree before what follows.

ghost use Rattle.std.specs.Prelude.{◌≡◌, ◌+◌, IfOk, if◌then◌else◌, map};
ghost use Rattle.c_tree.specs.declared.types.IntegerType.{IntegerType};
ghost use Rattle.c_tree.specs.TypedExpressions as tree;
ghost use Rattle.c_tree.specs.TypedExpressions.{arguments_view, lvalue_view, rvalue_view};
ghost use Rattle.graph_build_layout.specs.Chains.{lefts};
ghost use Rattle.graph_build_layout.specs.Laid.{behind_own, laid_view};
ghost use Rattle.graph_build_layout.specs.Layout.{laid};
ghost use Rattle.graph_build_names.specs.Names.{names_view};
ghost use Rattle.graph_build_layout.specs.declared.laid.Use.TheVariants.{Anywhere, Nothing, Tested};
ghost use Rattle.graph_build_steps.specs.Drafts.{goal_of, made_of, use_of};
ghost use Rattle.graph_build_code.specs.Code.{code, code_address, code_all, code_place, code_stepped, code_two, code_updated};

use crate::parts::{argument_laid, arms_laid, chain_laid, later_laid, tested_laid, written_laid};
use c_tree::{Arguments, Callee, Direction, Given, IntegerType, Lvalue, Rvalue, Scalar, Sign};
use c_type_rules::{given_by, integer_in, is_pointer, is_void, object_size, type_of};
use graph_build_layout::{
    Laid, Use, behind_move, behind_own, pair_behind, passed_laid, place_laid, use_for, value_laid,
};
use graph_build_names::{held, keeps_bits, pick, scalar_named, word_of, writes};
use graph_build_steps::{
    Change, Computation, Draft, Goal, Site, Two, arm_goal, arm_value, assigned_memory, called_by,
    callee_for, closed, element_of, finished, forked, hold_location, label_of, leading_to, leaf,
    left_memory, left_scalar, loaded_first, move_if, narrowed, negated, noted, object_address,
    one_at, operated, renewed_memory, renewed_scalar, signed, steps_by, use_of, used, valued,
};
use graph_core::{Name, Operand};
use std::alloc::{AllocError, Global};

// What a call gives; its failure is the function's own.
macro_rules! given {
    ($call:expr) => {
        match $call {
            Ok(value) => value,
            Err(fault) => return Err(fault),
        }
    };
}

// What a call gives; its failure is the function's own, which gives up what the value was for.
macro_rules! given_for {
    ($goal:ident, $call:expr) => {
        match $call {
            Ok(value) => value,
            Err(fault) => {
                give_up($goal);
                return Err(fault);
            }
        }
    };
}

/// What a value was for is given up, with what follows.
fn give_up(_goal: Goal) {}

/// Two values in turn, the first moved where the code of the second writes it, and what is made of them.
#[cycle(code)]
fn code_two(
    alloc: Global,
    site: &Site<'_>,
    first: &Rvalue,
    second: &Rvalue,
    two: Two,
    begun: u32,
    goal: Goal,
) -> Result<Draft, AllocError>
    ensures { IfOk result (λ d.
        made_of d ≡ code_two (names_view site.now.names.now) site.now.place.0 site.now.top (rvalue_view first.now)
        (rvalue_view second.now) two begun (goal_of goal)) }
{
    let laid = given_for!(
        goal,
        chain_laid(alloc, site.names, first, Use::Anywhere, begun)
    );
    code_two_known(
        alloc,
        site,
        first,
        second,
        two,
        laid.one,
        &laid.known,
        begun,
        goal,
    )
}

/// Two values in turn, where it is known where the first one stands and the left operands within it.
#[cycle(code)]
fn code_two_known(
    alloc: Global,
    site: &Site<'_>,
    first: &Rvalue,
    second: &Rvalue,
    two: Two,
    one: Laid,
    known: &[Laid],
    begun: u32,
    goal: Goal,
) -> Result<Draft, AllocError>
    requires one { laid_view one ≡ laid (names_view site.now.names.now) (rvalue_view first.now) Anywhere begun }
    requires known { map laid_view known.now
        ≡ lefts (names_view site.now.names.now) (rvalue_view first.now) Anywhere begun }
    ensures { IfOk result (λ d.
        made_of d ≡ code_two (names_view site.now.names.now) site.now.place.0 site.now.top (rvalue_view first.now)
        (rvalue_view second.now) two begun (goal_of goal)) }
{
    let pair = given_for!(goal, pair_behind(site.names, first, one, second, begun));
    let last = given!(finished(alloc, site, two, pair, begun, goal));
    let second = given!(code(alloc, site, second, pair.from, Goal::To(None, last)));
    let moved = given!(move_if(pair.moved, Name(pair.moved_to), pair.first, second));
    code_known(alloc, site, first, known, begun, Goal::To(None, moved))
}

/// The code of an expression, where it is known where its left operands stand.
#[cycle(code)]
fn code_known(
    alloc: Global,
    site: &Site<'_>,
    e: &Rvalue,
    known: &[Laid],
    begun: u32,
    goal: Goal,
) -> Result<Draft, AllocError>
    requires { map laid_view known.now
        ≡ lefts (names_view site.now.names.now) (rvalue_view e.now) (use_of (goal_of goal))
        begun }
    ensures { IfOk result (λ d.
        made_of d ≡ code (names_view site.now.names.now) site.now.place.0 site.now.top (rvalue_view e.now) begun
        (goal_of goal)) }
{
    let [one, rest @ ..] = known else {
        return code(alloc, site, e, begun, goal);
    };
    match e {
        Rvalue::Arithmetic {
            operator,
            integer_type,
            left,
            right,
        } => {
            let two = Two::Arithmetic(*operator, *integer_type);
            code_two_known(alloc, site, left, right, two, *one, rest, begun, goal)
        }
        Rvalue::Compare {
            operator,
            integer_type,
            left,
            right,
        } => {
            let two = Two::Compare(*operator, *integer_type);
            code_two_known(alloc, site, left, right, two, *one, rest, begun, goal)
        }
        Rvalue::Move {
            direction,
            element,
            pointer,
            by,
        } => {
            let two = Two::Move(*direction, object_size(*element));
            code_two_known(alloc, site, pointer, by, two, *one, rest, begun, goal)
        }
        Rvalue::And(left, right) => {
            code_both_known(alloc, site, true, left, right, *one, rest, begun, goal)
        }
        Rvalue::Or(left, right) => {
            code_both_known(alloc, site, false, left, right, *one, rest, begun, goal)
        }
        Rvalue::Comma(left, right) => {
            code_comma_known(alloc, site, left, right, *one, rest, begun, goal)
        }
        _ => code(alloc, site, e, begun, goal),
    }
}

/// The comma operator, where it is known where the first operand stands and the left operands within it.
#[cycle(code)]
fn code_comma_known(
    alloc: Global,
    site: &Site<'_>,
    left: &Rvalue,
    right: &Rvalue,
    one: Laid,
    known: &[Laid],
    begun: u32,
    goal: Goal,
) -> Result<Draft, AllocError>
    requires one { laid_view one ≡ laid (names_view site.now.names.now) (rvalue_view left.now) Nothing begun }
    requires known { map laid_view known.now
        ≡ lefts (names_view site.now.names.now) (rvalue_view left.now) Nothing begun }
    ensures { IfOk result (λ d.
        made_of d ≡ code (names_view site.now.names.now) site.now.place.0 site.now.top
        (tree.Comma (rvalue_view left.now) (rvalue_view right.now)) begun (goal_of goal)) }
{
    let at = pick(site.names, begun, one.top);
    let draft = given!(code(alloc, site, right, at, goal));
    code_known(alloc, site, left, known, begun, Goal::Unused(draft))
}

/// The comma operator.
#[cycle(code)]
fn code_comma(
    alloc: Global,
    site: &Site<'_>,
    left: &Rvalue,
    right: &Rvalue,
    begun: u32,
    goal: Goal,
) -> Result<Draft, AllocError>
    ensures { IfOk result (λ d.
        made_of d ≡ code (names_view site.now.names.now) site.now.place.0 site.now.top
        (tree.Comma (rvalue_view left.now) (rvalue_view right.now)) begun (goal_of goal)) }
{
    let laid = given_for!(
        goal,
        chain_laid(alloc, site.names, left, Use::Nothing, begun)
    );
    code_comma_known(alloc, site, left, right, laid.one, &laid.known, begun, goal)
}

/// What comes before the location of an lvalue in memory.
#[cycle(code)]
fn code_place(
    alloc: Global,
    site: &Site<'_>,
    l: &Lvalue,
    begun: u32,
    draft: Draft,
) -> Result<Draft, AllocError>
    ensures { IfOk result (λ d.
        made_of d ≡ code_place (names_view site.now.names.now) site.now.place.0 site.now.top (lvalue_view l.now)
        begun (made_of draft)) }
{
    match l {
        Lvalue::Named { .. } => Ok(draft),
        Lvalue::Target { pointer, .. } => {
            code(alloc, site, pointer, begun, Goal::To(None, draft))
        }
        Lvalue::Element { of, pointer, index } => {
            let two = Two::Move(Direction::Up, object_size(*of));
            code_two(
                alloc,
                site,
                pointer,
                index,
                two,
                begun,
                Goal::To(None, draft),
            )
        }
        Lvalue::ElementFrom { of, index, pointer } => {
            let two = Two::MoveFrom(object_size(*of));
            code_two(
                alloc,
                site,
                index,
                pointer,
                two,
                begun,
                Goal::To(None, draft),
            )
        }
    }
}

/// The address of an lvalue.
#[cycle(code)]
fn code_address(
    alloc: Global,
    site: &Site<'_>,
    l: &Lvalue,
    begun: u32,
    goal: Goal,
) -> Result<Draft, AllocError>
    ensures { IfOk result (λ d.
        made_of d ≡ code_address (names_view site.now.names.now) site.now.place.0 site.now.top (lvalue_view l.now)
        begun (goal_of goal)) }
{
    match l {
        Lvalue::Named { object, .. } => object_address(alloc, site, *object, begun, goal),
        Lvalue::Target { pointer, .. } => {
            let laid = value_laid(site.names, pointer, Use::Anywhere, begun);
            let value = given_for!(goal, laid).value;
            code(
                alloc,
                site,
                pointer,
                begun,
                valued(alloc, used(goal), value),
            )
        }
        Lvalue::Element { of, pointer, index } => {
            let two = Two::Move(Direction::Up, object_size(*of));
            code_two(alloc, site, pointer, index, two, begun, goal)
        }
        Lvalue::ElementFrom { of, index, pointer } => {
            let two = Two::MoveFrom(object_size(*of));
            code_two(alloc, site, index, pointer, two, begun, goal)
        }
    }
}

/// The value of an object.
#[cycle(code)]
fn code_load(
    alloc: Global,
    site: &Site<'_>,
    scalar: Scalar,
    from: &Lvalue,
    begun: u32,
    goal: Goal,
) -> Result<Draft, AllocError>
    ensures { IfOk result (λ d.
        made_of d ≡ code (names_view site.now.names.now) site.now.place.0 site.now.top
        (tree.Load scalar (lvalue_view from.now)) begun (goal_of goal)) }
{
    match scalar_named(site.names, from) {
        Some(name) => leaf(alloc, goal, Operand::Name(Name(name))),
        None => {
            let place = given_for!(goal, place_laid(site.names, from, begun));
            let load = Computation::Load(element_of(scalar), place.location);
            let draft = given!(operated(alloc, site.names, goal, begun, place.next, load));
            code_place(alloc, site, from, begun, draft)
        }
    }
}

/// A value converted to an integer type.
#[cycle(code)]
fn code_converted(
    alloc: Global,
    site: &Site<'_>,
    to: IntegerType,
    operand: &Rvalue,
    begun: u32,
    goal: Goal,
) -> Result<Draft, AllocError>
    ensures { IfOk result (λ d.
        made_of d ≡ code (names_view site.now.names.now) site.now.place.0 site.now.top
        (tree.Convert to (rvalue_view operand.now)) begun (goal_of goal)) }
{
    let from = integer_in(type_of(&site.names.results, operand));
    let value = given_for!(goal, value_laid(site.names, operand, Use::Anywhere, begun));
    if keeps_bits(from, to) {
        return code(
            alloc,
            site,
            operand,
            begun,
            valued(alloc, goal, value.value),
        );
    }
    let draft = given!(narrowed(alloc, site, to, value, begun, goal));
    code(alloc, site, operand, begun, Goal::To(None, draft))
}

/// A value with a sign.
#[cycle(code)]
fn code_signed(
    alloc: Global,
    site: &Site<'_>,
    sign: Sign,
    operand: &Rvalue,
    begun: u32,
    goal: Goal,
) -> Result<Draft, AllocError>
    ensures { (of : IntegerType)
        → IfOk result (λ d.
        made_of d ≡ code (names_view site.now.names.now) site.now.place.0 site.now.top
        (tree.Signed sign of (rvalue_view operand.now)) begun (goal_of goal)) }
{
    let value = given_for!(goal, value_laid(site.names, operand, Use::Anywhere, begun));
    match sign {
        Sign::Plus => code(
            alloc,
            site,
            operand,
            begun,
            valued(alloc, goal, value.value),
        ),
        Sign::Minus | Sign::Complement => {
            let draft = given!(signed(alloc, site, sign, value, begun, goal));
            code(alloc, site, operand, begun, Goal::To(None, draft))
        }
    }
}

/// Whether a value is 0.
#[cycle(code)]
fn code_not(
    alloc: Global,
    site: &Site<'_>,
    operand: &Rvalue,
    begun: u32,
    goal: Goal,
) -> Result<Draft, AllocError>
    ensures { IfOk result (λ d.
        made_of d ≡ code (names_view site.now.names.now) site.now.place.0 site.now.top
        (tree.Not (rvalue_view operand.now)) begun (goal_of goal)) }
{
    match goal {
        Goal::Either(one, other, inner) => {
            code(alloc, site, operand, begun, Goal::Either(other, one, inner))
        }
        _ => {
            let value = given_for!(goal, value_laid(site.names, operand, Use::Anywhere, begun));
            let is_pointer = is_pointer(type_of(&site.names.results, operand));
            let draft = given!(negated(alloc, site, is_pointer, value, begun, goal));
            code(alloc, site, operand, begun, Goal::To(None, draft))
        }
    }
}

/// `&&` and `||`: the second operand is tested where the first is not 0, or where it is.
#[cycle(code)]
fn code_both(
    alloc: Global,
    site: &Site<'_>,
    is_and: bool,
    left: &Rvalue,
    right: &Rvalue,
    begun: u32,
    goal: Goal,
) -> Result<Draft, AllocError>
    ensures { IfOk result (λ d.
        made_of d ≡ code (names_view site.now.names.now) site.now.place.0 site.now.top
        (if is_and then tree.And (rvalue_view left.now) (rvalue_view right.now) else tree.Or
        (rvalue_view left.now) (rvalue_view right.now))
        begun (goal_of goal)) }
{
    let laid = given_for!(
        goal,
        tested_laid(alloc, site.names, left, use_of(&goal), begun)
    );
    code_both_known(
        alloc,
        site,
        is_and,
        left,
        right,
        laid.one,
        &laid.known,
        begun,
        goal,
    )
}

/// `&&` and `||`, where it is known where the first operand stands and the left operands within it.
#[cycle(code)]
fn code_both_known(
    alloc: Global,
    site: &Site<'_>,
    is_and: bool,
    left: &Rvalue,
    right: &Rvalue,
    one: Laid,
    known: &[Laid],
    begun: u32,
    goal: Goal,
) -> Result<Draft, AllocError>
    requires one { laid_view one ≡ laid (names_view site.now.names.now) (rvalue_view left.now) Tested
        (behind_own (use_of (goal_of goal)) begun) }
    requires known { map laid_view known.now ≡ lefts (names_view site.now.names.now) (rvalue_view left.now) Tested
        (behind_own (use_of (goal_of goal)) begun) }
    ensures { IfOk result (λ d.
        made_of d ≡ code (names_view site.now.names.now) site.now.place.0 site.now.top
        (if is_and then tree.And (rvalue_view left.now) (rvalue_view right.now) else tree.Or
        (rvalue_view left.now) (rvalue_view right.now))
        begun (goal_of goal)) }
{
    let at = given_for!(goal, behind_own(use_of(&goal), begun));
    let behind = pick(site.names, at, one.top);
    let way = given!(forked(alloc, site.place, site.top, goal, Name(begun)));
    let (one, other) = (way.one, way.other);
    let second = given!(code(
        alloc,
        site,
        right,
        behind,
        Goal::Either(one, other, way.inner)
    ));
    let label = label_of(site, &second);
    let inner = given!(closed(site.place, second));
    let (one, other) = if is_and { (label, other) } else { (one, label) };
    code_known(
        alloc,
        site,
        left,
        known,
        at,
        Goal::Either(one, other, inner),
    )
}

/// `?:`, whose arms write its value to a name, or have none.
#[cycle(code)]
fn code_conditional(
    alloc: Global,
    site: &Site<'_>,
    condition: &Rvalue,
    chosen: &Rvalue,
    otherwise: &Rvalue,
    begun: u32,
    goal: Goal,
) -> Result<Draft, AllocError>
    ensures { IfOk result (λ d.
        made_of d ≡ code (names_view site.now.names.now) site.now.place.0 site.now.top
        (tree.Conditional (rvalue_view condition.now) (rvalue_view chosen.now) (rvalue_view otherwise.now))
        begun (goal_of goal)) }
{
    let laid = given_for!(goal, arms_laid(site.names, condition, chosen, begun));
    let after = given!(leaf(alloc, goal, arm_value(laid.is_void, Name(begun))));
    let join = label_of(site, &after);
    let draft = given!(leading_to(alloc, site, join, after));
    let goal = arm_goal(laid.is_void, Name(begun), draft);
    let other = given!(code(alloc, site, otherwise, laid.at_other, goal));
    let other_label = label_of(site, &other);
    let draft = given!(leading_to(alloc, site, join, other));
    let goal = arm_goal(laid.is_void, Name(begun), draft);
    let one = given!(code(alloc, site, chosen, laid.at_then, goal));
    let one_label = label_of(site, &one);
    let inner = given!(closed(site.place, one));
    code(
        alloc,
        site,
        condition,
        laid.at,
        Goal::Either(one_label, other_label, inner),
    )
}

/// An assignment.
#[cycle(code)]
fn code_assigned(
    alloc: Global,
    site: &Site<'_>,
    scalar: Scalar,
    l: &Lvalue,
    value: &Rvalue,
    begun: u32,
    goal: Goal,
) -> Result<Draft, AllocError>
    ensures { IfOk result (λ d.
        made_of d ≡ code (names_view site.now.names.now) site.now.place.0 site.now.top
        (tree.Assign scalar (lvalue_view l.now) (rvalue_view value.now)) begun (goal_of goal)) }
{
    let names = site.names;
    match scalar_named(names, l) {
        Some(name) => {
            let draft = given!(noted(alloc, Name(name), goal));
            code(alloc, site, value, begun, Goal::To(Some(Name(name)), draft))
        }
        None => {
            let asked = use_for(None, use_of(&goal));
            let laid = given_for!(goal, written_laid(names, l, value, asked, false, begun));
            let (place, moved) = (laid.place, laid.moved);
            let source = laid.right.value.value;
            let element = element_of(scalar);
            let right = given!(assigned_memory(alloc, goal, place, moved, element, source));
            let draft = given!(code(alloc, site, value, laid.right.from, right));
            let draft = given!(hold_location(moved, Name(place.next), place.location, draft));
            code_place(alloc, site, l, begun, draft)
        }
    }
}

/// `a op= b`.
#[cycle(code)]
fn code_updated(
    alloc: Global,
    site: &Site<'_>,
    change: Change,
    l: &Lvalue,
    value: &Rvalue,
    begun: u32,
    goal: Goal,
) -> Result<Draft, AllocError>
    ensures { IfOk result (λ d.
        made_of d ≡ code_updated (names_view site.now.names.now) site.now.place.0 site.now.top change
        (lvalue_view l.now) (rvalue_view value.now) begun (goal_of goal)) }
{
    let names = site.names;
    match scalar_named(names, l) {
        Some(name) => {
            let moved = writes(names, name, value);
            let by = given_for!(goal, later_laid(names, value, Use::Anywhere, moved, begun));
            let scalar = Operand::Name(Name(name));
            let old = held(moved, scalar, begun);
            let draft = given!(renewed_scalar(alloc, change, name, old, by.value, goal));
            let draft = given!(code(alloc, site, value, by.from, Goal::To(None, draft)));
            move_if(moved, Name(begun), scalar, draft)
        }
        None => {
            let anywhere = Use::Anywhere;
            let laid = given_for!(goal, written_laid(names, l, value, anywhere, true, begun));
            let (place, moved, by) = (laid.place, laid.moved, laid.right);
            let draft = given!(renewed_memory(alloc, names, change, place, moved, by.value, goal));
            let draft = given!(code(alloc, site, value, by.from, Goal::To(None, draft)));
            let draft = given!(loaded_first(change, place, moved, draft));
            code_place(alloc, site, l, begun, draft)
        }
    }
}

/// `++` and `--`, whose value is the new one or the old one.
#[cycle(code)]
fn code_stepped(
    alloc: Global,
    site: &Site<'_>,
    change: Change,
    given: Given,
    l: &Lvalue,
    begun: u32,
    goal: Goal,
) -> Result<Draft, AllocError>
    ensures { IfOk result (λ d.
        made_of d ≡ code_stepped (names_view site.now.names.now) site.now.place.0 site.now.top change given
        (lvalue_view l.now) begun (goal_of goal)) }
{
    let names = site.names;
    match (given, scalar_named(names, l)) {
        (Given::New, Some(name)) => {
            let old = Operand::Name(Name(name));
            renewed_scalar(alloc, change, name, old, one_at(begun), goal)
        }
        (Given::New, None) => {
            let place = given_for!(goal, place_laid(names, l, begun));
            let one = one_at(given_for!(goal, behind_move(true, place.next)));
            let draft = given!(renewed_memory(alloc, names, change, place, false, one, goal));
            let draft = given!(loaded_first(change, place, false, draft));
            code_place(alloc, site, l, begun, draft)
        }
        (Given::Old, Some(name)) => left_scalar(alloc, change, name, begun, goal),
        (Given::Old, None) => {
            let place = given_for!(goal, place_laid(names, l, begun));
            let draft = given!(left_memory(alloc, change, place, goal));
            code_place(alloc, site, l, begun, draft)
        }
    }
}

/// A call.
#[cycle(code)]
fn code_called(
    alloc: Global,
    site: &Site<'_>,
    callee: Callee,
    arguments: &Arguments,
    begun: u32,
    goal: Goal,
) -> Result<Draft, AllocError>
    ensures { IfOk result (λ d.
        made_of d ≡ code (names_view site.now.names.now) site.now.place.0 site.now.top
        (tree.Call callee (arguments_view arguments.now)) begun (goal_of goal)) }
{
    let passed = given_for!(goal, passed_laid(alloc, site.names, arguments, begun));
    let is_void = is_void(given_by(&site.names.results, callee));
    let own = Name(pick(site.names, begun, passed.next));
    let draft = given!(called_by(alloc, is_void, goal, own, callee_for(callee), passed.values));
    code_all(alloc, site, arguments, begun, draft)
}

/// Arguments from left to right.
#[cycle(code)]
fn code_all(
    alloc: Global,
    site: &Site<'_>,
    all: &Arguments,
    begun: u32,
    draft: Draft,
) -> Result<Draft, AllocError>
    ensures { IfOk result (λ d.
        made_of d ≡ code_all (names_view site.now.names.now) site.now.place.0 site.now.top (arguments_view all.now)
        begun (made_of draft)) }
{
    match all {
        Arguments::End => Ok(draft),
        Arguments::More(first, rest) => {
            let laid = given!(argument_laid(site.names, first, rest, begun));
            let draft = given!(code_all(alloc, site, rest, laid.behind, draft));
            let (name, value) = (Name(laid.value.next), laid.value.value);
            let draft = given!(move_if(laid.moved, name, value, draft));
            code(alloc, site, first, begun, Goal::To(None, draft))
        }
    }
}

/// The code of an expression that begins when a name is free, then what its value is for.
#[cycle(code)]
pub fn code(
    alloc: Global,
    site: &Site<'_>,
    e: &Rvalue,
    begun: u32,
    goal: Goal,
) -> Result<Draft, AllocError>
    ensures { IfOk result (λ d.
        made_of d ≡ code (names_view site.now.names.now) site.now.place.0 site.now.top (rvalue_view e.now) begun
        (goal_of goal)) }
{
    match e {
        Rvalue::Constant { value, .. } => leaf(alloc, goal, Operand::Constant(word_of(*value))),
        Rvalue::Null => leaf(alloc, goal, Operand::Constant(0)),
        Rvalue::Load { scalar, from } => code_load(alloc, site, *scalar, from, begun, goal),
        Rvalue::Decay(from) | Rvalue::AddressOf(from) => {
            code_address(alloc, site, from, begun, goal)
        }
        Rvalue::Convert { to, operand } => {
            code_converted(alloc, site, *to, operand, begun, goal)
        }
        Rvalue::Discard(operand) => {
            let draft = given!(leaf(alloc, goal, Operand::Constant(0)));
            code(alloc, site, operand, begun, Goal::Unused(draft))
        }
        Rvalue::Signed { sign, operand, .. } => {
            code_signed(alloc, site, *sign, operand, begun, goal)
        }
        Rvalue::Not(operand) => code_not(alloc, site, operand, begun, goal),
        Rvalue::Arithmetic {
            operator,
            integer_type,
            left,
            right,
        } => {
            let two = Two::Arithmetic(*operator, *integer_type);
            code_two(alloc, site, left, right, two, begun, goal)
        }
        Rvalue::Compare {
            operator,
            integer_type,
            left,
            right,
        } => {
            let two = Two::Compare(*operator, *integer_type);
            code_two(alloc, site, left, right, two, begun, goal)
        }
        Rvalue::ComparePointers {
            operator,
            left,
            right,
        } => {
            let two = Two::ComparePointers(*operator);
            code_two(alloc, site, left, right, two, begun, goal)
        }
        Rvalue::Move {
            direction,
            element,
            pointer,
            by,
        } => {
            let two = Two::Move(*direction, object_size(*element));
            code_two(alloc, site, pointer, by, two, begun, goal)
        }
        Rvalue::MoveFrom {
            by,
            element,
            pointer,
        } => {
            let two = Two::MoveFrom(object_size(*element));
            code_two(alloc, site, by, pointer, two, begun, goal)
        }
        Rvalue::Difference {
            element,
            left,
            right,
        } => {
            let two = Two::Difference(object_size(*element));
            code_two(alloc, site, left, right, two, begun, goal)
        }
        Rvalue::And(left, right) => code_both(alloc, site, true, left, right, begun, goal),
        Rvalue::Or(left, right) => code_both(alloc, site, false, left, right, begun, goal),
        Rvalue::Conditional {
            condition,
            then,
            otherwise,
        } => { code_conditional(alloc, site, condition, then, otherwise, begun, goal) }
        Rvalue::Comma(left, right) => code_comma(alloc, site, left, right, begun, goal),
        Rvalue::Assign {
            scalar,
            target,
            value,
        } => code_assigned(alloc, site, *scalar, target, value, begun, goal),
        Rvalue::Update {
            operator,
            target_type,
            integer_type,
            target,
            value,
        } => {
            let change = Change::Integer(*operator, *target_type, *integer_type);
            code_updated(alloc, site, change, target, value, begun, goal)
        }
        Rvalue::UpdatePointer {
            direction,
            element,
            target,
            by,
        } => {
            let change = Change::Pointer(*direction, object_size(*element));
            code_updated(alloc, site, change, target, by, begun, goal)
        }
        Rvalue::Step {
            direction,
            given,
            target_type,
            integer_type,
            target,
        } => {
            let change = Change::Integer(steps_by(*direction), *target_type, *integer_type);
            code_stepped(alloc, site, change, *given, target, begun, goal)
        }
        Rvalue::StepPointer {
            direction,
            given,
            element,
            target,
        } => {
            let change = Change::Pointer(*direction, object_size(*element));
            code_stepped(alloc, site, change, *given, target, begun, goal)
        }
        Rvalue::Call { callee, arguments } => {
            code_called(alloc, site, *callee, arguments, begun, goal)
        }
    }
}
