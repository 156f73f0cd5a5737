//! How many inner blocks the code of expressions has.

ghost use Rattle.std.specs.Prelude.{◌≡◌, ◌+◌, IfOk};
ghost use Rattle.c_tree.specs.TypedExpressions.{arguments_view, lvalue_view, rvalue_view};
ghost use Rattle.graph_build_names.specs.Inner.{for_truth, inner, inner_of, inner_within};

use c_tree::{Arguments, Lvalue, Rvalue};
use std::alloc::AllocError;

// What a call gives; its failure is the function's own.
macro_rules! given {
    ($call:expr) => {
        match $call {
            Ok(value) => value,
            Err(fault) => return Err(fault),
        }
    };
}

/// A sum; want of memory behind the greatest number.
fn sum(one: u32, other: u32) -> Result<u32, AllocError>
    ensures { IfOk result (λ all. all ≡ one + other) }
{
    match one.checked_add(other) {
        None => Err(AllocError),
        Some(all) => Ok(all),
    }
}

/// The inner blocks of two expressions.
#[cycle(inner)]
fn of_two(is_tested: bool, left: &Rvalue, right: &Rvalue) -> Result<u32, AllocError>
    ensures { IfOk result
        (λ count. count ≡ inner is_tested (rvalue_view left.now) + inner is_tested (rvalue_view right.now)) }
{
    let one = given!(inner_blocks(is_tested, left));
    let other = given!(inner_blocks(is_tested, right));
    sum(one, other)
}

/// The inner blocks of an expression that is tested, or is not. Want of memory also answers 2^32 of them.
#[cycle(inner)]
pub fn inner_blocks(is_tested: bool, e: &Rvalue) -> Result<u32, AllocError>
    ensures { IfOk result (λ count. count ≡ inner is_tested (rvalue_view e.now)) }
{
    match e {
        Rvalue::Constant { .. } | Rvalue::Null => Ok(0),
        Rvalue::Load { from, .. }
        | Rvalue::Decay(from)
        | Rvalue::AddressOf(from)
        | Rvalue::Step { target: from, .. }
        | Rvalue::StepPointer { target: from, .. } => inner_blocks_within(from),
        Rvalue::Convert { operand, .. }
        | Rvalue::Discard(operand)
        | Rvalue::Signed { operand, .. } => inner_blocks(false, operand),
        Rvalue::Not(operand) => inner_blocks(is_tested, operand),
        Rvalue::Arithmetic { left, right, .. }
        | Rvalue::Compare { left, right, .. }
        | Rvalue::ComparePointers { left, right, .. }
        | Rvalue::Move {
            pointer: left,
            by: right,
            ..
        }
        | Rvalue::MoveFrom {
            by: left,
            pointer: right,
            ..
        }
        | Rvalue::Difference { left, right, .. } => of_two(false, left, right),
        Rvalue::And(left, right) | Rvalue::Or(left, right) => {
            let both = given!(of_two(true, left, right));
            sum(both, if is_tested { 1 } else { 4 })
        }
        Rvalue::Conditional {
            condition,
            then,
            otherwise,
        } => {
            let test = given!(inner_blocks(true, condition));
            let arms = given!(of_two(false, then, otherwise));
            let all = given!(sum(test, arms));
            sum(all, 3)
        }
        Rvalue::Comma(left, right) => {
            let one = given!(inner_blocks(false, left));
            let other = given!(inner_blocks(is_tested, right));
            sum(one, other)
        }
        Rvalue::Assign { target, value, .. }
        | Rvalue::Update { target, value, .. }
        | Rvalue::UpdatePointer {
            target,
            by: value,
            ..
        } => {
            let place = given!(inner_blocks_within(target));
            let other = given!(inner_blocks(false, value));
            sum(place, other)
        }
        Rvalue::Call { arguments, .. } => inner_blocks_of(arguments),
    }
}

/// Those of what comes before the place of an lvalue.
#[cycle(inner)]
pub fn inner_blocks_within(l: &Lvalue) -> Result<u32, AllocError>
    ensures { IfOk result (λ count. count ≡ inner_within (lvalue_view l.now)) }
{
    match l {
        Lvalue::Named { .. } => Ok(0),
        Lvalue::Target { pointer, .. } => inner_blocks(false, pointer),
        Lvalue::Element {
            pointer: left,
            index: right,
            ..
        }
        | Lvalue::ElementFrom {
            index: left,
            pointer: right,
            ..
        } => of_two(false, left, right),
    }
}

/// Those of arguments.
#[cycle(inner)]
pub fn inner_blocks_of(all: &Arguments) -> Result<u32, AllocError>
    ensures { IfOk result (λ count. count ≡ inner_of (arguments_view all.now)) }
{
    match all {
        Arguments::End => Ok(0),
        Arguments::More(first, rest) => {
            let one = given!(inner_blocks(false, first));
            let more = given!(inner_blocks_of(rest));
            sum(one, more)
        }
    }
}
