//! Where the left operands of operators stand, one within the other: found once for a whole chain of operators.

ghost use Rattle.std.specs.Prelude.{◌≡◌, ◌∷◌, ◌++◌, IfOk, OnOk, map, reverse};
ghost use Rattle.c_tree.specs.TypedExpressions.{rvalue_view};
ghost use Rattle.c_type_rules.specs.Integers.{object_size};
ghost use Rattle.graph_build_layout.specs.Laid as spec;
ghost use Rattle.graph_build_layout.specs.Laid.{laid_view, pair, pair_view};
ghost use Rattle.graph_build_layout.specs.declared.laid.Use.TheVariants.{Anywhere, Nothing, Tested};
ghost use Rattle.graph_build_layout.specs.Chains.{lefts};
ghost use Rattle.graph_build_layout.specs.Layout.{laid};
ghost use Rattle.graph_build_names.specs.Names.{names_view, pick};
ghost use Rattle.graph_build_names.specs.Writes.{writes};

use crate::layout::{pair_behind, value_laid};
use crate::{
    Laid, Pair, Use, after_pair, behind_own, behind_top, compared_laid, greater, moved_laid,
    truth_laid,
};
use c_tree::{ObjectType, Rvalue};
use c_type_rules::object_size;
use graph_build_names::{Names, is_two, pick};
use std::alloc::AllocError;

// What a call gives; its failure is the function's own.
macro_rules! given {
    ($call:expr) => {
        match $call {
            Ok(value) => value,
            Err(fault) => return Err(fault),
        }
    };
}

/// Where a left operand stands. Behind those that a list has are put the left operands within it, the innermost first,
/// and then itself.
#[cycle(lefts)]
fn left_laid(
    names: &Names,
    left: &Rvalue,
    wanted: Use,
    begun: u32,
    known: &mut Vec<Laid>,
) -> Result<Laid, AllocError>
    ensures laid { IfOk result (λ r. laid_view r ≡ laid (names_view names.now) (rvalue_view left.now) wanted begun) }
    ensures known { OnOk result
        (map laid_view (reverse known.new.items) ≡ (laid (names_view names.now) (rvalue_view left.now) wanted begun
        ∷ lefts (names_view names.now) (rvalue_view left.now) wanted begun) ++ map laid_view (reverse
        known.old.items)) }
{
    let one = given!(lefts_laid(names, left, wanted, begun, known));
    known.push(one)?;
    Ok(one)
}

/// Where two values stand that are computed in turn, with the left operands of the first.
#[cycle(lefts)]
fn pair_lefts_laid(
    names: &Names,
    left: &Rvalue,
    right: &Rvalue,
    begun: u32,
    known: &mut Vec<Laid>,
) -> Result<Pair, AllocError>
    ensures pair { IfOk result (λ q.
        pair_view q ≡ pair (λ y. writes (names_view names.now) y (rvalue_view right.now))
        (laid (names_view names.now) (rvalue_view left.now) Anywhere begun)
        (laid (names_view names.now) (rvalue_view right.now) Anywhere)) }
    ensures known { OnOk result
        (map laid_view (reverse known.new.items) ≡ (laid (names_view names.now) (rvalue_view left.now) Anywhere
        begun ∷ lefts (names_view names.now) (rvalue_view left.now) Anywhere begun) ++ map laid_view (reverse
        known.old.items)) }
{
    let one = given!(left_laid(names, left, Use::Anywhere, begun, known));
    pair_behind(names, left, one, right, begun)
}

/// Integer arithmetic, with the left operands of the first operand.
#[cycle(lefts)]
fn arithmetic_lefts_laid(
    names: &Names,
    left: &Rvalue,
    right: &Rvalue,
    wanted: Use,
    begun: u32,
    known: &mut Vec<Laid>,
) -> Result<Laid, AllocError>
    ensures laid { IfOk result (λ r.
        laid_view r ≡ spec.after_pair (names_view names.now) wanted begun (pair
        (λ y. writes (names_view names.now) y (rvalue_view right.now))
        (laid (names_view names.now) (rvalue_view left.now) Anywhere begun)
        (laid (names_view names.now) (rvalue_view right.now) Anywhere))) }
    ensures known { OnOk result
        (map laid_view (reverse known.new.items) ≡ (laid (names_view names.now) (rvalue_view left.now) Anywhere
        begun ∷ lefts (names_view names.now) (rvalue_view left.now) Anywhere begun) ++ map laid_view (reverse
        known.old.items)) }
{
    let pair = given!(pair_lefts_laid(names, left, right, begun, known));
    after_pair(names, wanted, begun, pair)
}

/// A pointer that is moved by an index, with the left operands of the pointer.
#[cycle(lefts)]
fn moved_lefts_laid(
    names: &Names,
    of: ObjectType,
    pointer: &Rvalue,
    by: &Rvalue,
    wanted: Use,
    begun: u32,
    known: &mut Vec<Laid>,
) -> Result<Laid, AllocError>
    ensures laid { let q = pair (λ y.
        writes (names_view names.now) y (rvalue_view by.now)) (laid (names_view names.now) (rvalue_view pointer.now)
        Anywhere begun) (laid (names_view names.now) (rvalue_view by.now) Anywhere) in IfOk result (λ r.
        laid_view r ≡ spec.moved_laid (names_view names.now) wanted begun (object_size of) q.right q) }
    ensures known { OnOk result
        (map laid_view (reverse known.new.items) ≡ (laid (names_view names.now) (rvalue_view pointer.now) Anywhere
        begun ∷ lefts (names_view names.now) (rvalue_view pointer.now) Anywhere begun) ++ map laid_view (reverse
        known.old.items)) }
{
    let pair = given!(pair_lefts_laid(names, pointer, by, begun, known));
    moved_laid(names, wanted, begun, object_size(of), pair.right, pair)
}

/// `&&` and `||`, with the left operands of the first operand.
#[cycle(lefts)]
fn both_lefts_laid(
    names: &Names,
    left: &Rvalue,
    right: &Rvalue,
    wanted: Use,
    begun: u32,
    known: &mut Vec<Laid>,
) -> Result<Laid, AllocError>
    ensures laid { IfOk result (λ r.
        laid_view r ≡ spec.both_laid (names_view names.now) wanted begun
        (laid (names_view names.now) (rvalue_view left.now) Tested)
        (laid (names_view names.now) (rvalue_view right.now) Tested)) }
    ensures known { OnOk result
        (map laid_view (reverse known.new.items) ≡ (laid (names_view names.now) (rvalue_view left.now) Tested
        (spec.behind_own wanted begun) ∷ lefts (names_view names.now) (rvalue_view left.now) Tested
        (spec.behind_own wanted begun)) ++ map laid_view (reverse known.old.items)) }
{
    let start = given!(behind_own(wanted, begun));
    let one = given!(left_laid(names, left, Use::Tested, start, known));
    let other = given!(value_laid(names, right, Use::Tested, pick(names, start, one.top)));
    truth_laid(names, wanted, begun, greater(one.top, other.top))
}

/// The comma operator, with the left operands of the first operand.
#[cycle(lefts)]
fn comma_lefts_laid(
    names: &Names,
    left: &Rvalue,
    right: &Rvalue,
    wanted: Use,
    begun: u32,
    known: &mut Vec<Laid>,
) -> Result<Laid, AllocError>
    ensures laid { let one = laid (names_view names.now) (rvalue_view left.now) Nothing begun in IfOk result (λ r.
        laid_view r ≡ spec.behind_top one.top
        (laid (names_view names.now) (rvalue_view right.now) wanted
        (pick (names_view names.now) begun one.top))) }
    ensures known { OnOk result
        (map laid_view (reverse known.new.items) ≡ (laid (names_view names.now) (rvalue_view left.now) Nothing begun
        ∷ lefts (names_view names.now) (rvalue_view left.now) Nothing begun) ++ map laid_view (reverse
        known.old.items)) }
{
    let one = given!(left_laid(names, left, Use::Nothing, begun, known));
    let other = given!(value_laid(names, right, wanted, pick(names, begun, one.top)));
    Ok(behind_top(one.top, other))
}

/// Where the value of an expression stands. Behind those that a list has are put its left operand and those within it,
/// the innermost first.
#[cycle(lefts)]
pub fn lefts_laid(
    names: &Names,
    e: &Rvalue,
    wanted: Use,
    begun: u32,
    known: &mut Vec<Laid>,
) -> Result<Laid, AllocError>
    ensures laid { IfOk result (λ r. laid_view r ≡ laid (names_view names.now) (rvalue_view e.now) wanted begun) }
    ensures known { OnOk result
        (map laid_view (reverse known.new.items) ≡ lefts (names_view names.now) (rvalue_view e.now) wanted begun
        ++ map laid_view (reverse known.old.items)) }
{
    match e {
        Rvalue::Arithmetic { left, right, .. } => {
            arithmetic_lefts_laid(names, left, right, wanted, begun, known)
        }
        Rvalue::Compare {
            operator,
            left,
            right,
            ..
        } => {
            let pair = given!(pair_lefts_laid(names, left, right, begun, known));
            compared_laid(names, wanted, is_two(*operator), begun, pair)
        }
        Rvalue::Move {
            element,
            pointer,
            by,
            ..
        } => { moved_lefts_laid(names, *element, pointer, by, wanted, begun, known) }
        Rvalue::And(left, right) | Rvalue::Or(left, right) => {
            both_lefts_laid(names, left, right, wanted, begun, known)
        }
        Rvalue::Comma(left, right) => { comma_lefts_laid(names, left, right, wanted, begun, known) }
        _ => value_laid(names, e, wanted, begun),
    }
}
