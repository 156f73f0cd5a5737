//! How it is put together where values stand.

ghost use Rattle.std.specs.Prelude.{◌≡◌, IfOk, max};
ghost use Rattle.graph_core.specs.Graphs.{operand_view};
ghost use Rattle.graph_build_names.specs.Names.{names_view};
ghost use Rattle.graph_build_layout.specs.Laid.{after_pair, as_value, at_laid, behind_move, behind_own, behind_top, compared_laid, converted_laid, joined_laid, laid_view, leaf_laid, moved_laid, operation_laid, pair_view, place_view, standing, steps_laid, truth_laid, unused_laid, use_for, worked};

use crate::laid::{Laid, Pair, PlaceLaid, Use};
use c_tree::IntegerType;
use graph_build_names::{Names, following, is_kept_constant, is_scaled, pick};
use graph_core::{Location, Name, Operand};
use std::alloc::AllocError;

// What a call gives; its failure is the function's own.
macro_rules! given {
    ($call:expr) => {
        match $call {
            Ok(value) => value,
            Err(fault) => return Err(fault),
        }
    };
}

/// A name, or the next one where a name is taken.
pub fn behind_move(taken: bool, name: u32) -> Result<u32, AllocError>
    ensures { IfOk result (λ next. next ≡ behind_move taken name) }
{
    if taken { following(name) } else { Ok(name) }
}

/// The greater number.
pub fn greater(one: u32, other: u32) -> u32
    ensures { result ≡ max one other }
{
    if one < other { other } else { one }
}

/// What a value is for that is itself wanted: one that is tested stands anywhere.
pub fn as_value(wanted: Use) -> Use
    ensures { result ≡ as_value wanted }
{
    match wanted {
        Use::Tested => Use::Anywhere,
        _ => wanted,
    }
}

/// What a value is for that is worked with, although nothing may use what is made of it.
pub fn worked(wanted: Use) -> Use
    ensures { result ≡ worked wanted }
{
    match wanted {
        Use::In(_) => wanted,
        _ => Use::Anywhere,
    }
}

/// What the right side of an assignment is for: to stand in the scalar, or where the assignment's value is wanted.
pub fn use_for(scalar: Option<u32>, wanted: Use) -> Use
    ensures { result ≡ use_for scalar wanted }
{
    match scalar {
        Some(name) => Use::In(name),
        None => worked(wanted),
    }
}

/// An operation's result.
pub fn operation_laid(
    names: &Names,
    wanted: Use,
    begun: u32,
    free: u32,
    top: u32,
) -> Result<Laid, AllocError>
    ensures { IfOk result (λ r. laid_view r ≡ operation_laid (names_view names.now) wanted begun free top) }
{
    let name = pick(names, begun, free);
    let top = greater(free, top);
    match wanted {
        Use::In(x) => Ok(Laid {
            value: Operand::Name(Name(x)),
            next: name,
            top,
        }),
        _ => {
            let next = given!(following(name));
            Ok(Laid {
                value: Operand::Name(Name(name)),
                next,
                top: greater(next, top),
            })
        }
    }
}

/// A value that stands already.
pub fn standing(names: &Names, wanted: Use, begun: u32, laid: Laid) -> Laid
    ensures { laid_view result ≡ standing (names_view names.now) wanted begun (laid_view laid) }
{
    match wanted {
        Use::In(x) => Laid {
            value: Operand::Name(Name(x)),
            next: pick(names, begun, laid.next),
            top: laid.top,
        },
        _ => laid,
    }
}

/// A value that nothing computes.
pub fn leaf_laid(names: &Names, wanted: Use, value: Operand, begun: u32) -> Laid
    ensures { laid_view result ≡ leaf_laid (names_view names.now) wanted (operand_view value) begun }
{
    let laid = Laid {
        value,
        next: begun,
        top: begun,
    };
    standing(names, wanted, begun, laid)
}

/// A value that nothing uses.
pub fn unused_laid(next: u32, top: u32) -> Laid
    ensures { laid_view result ≡ unused_laid next top }
{
    Laid {
        value: Operand::Constant(0),
        next,
        top,
    }
}

/// A result of one instruction on two values.
pub fn after_pair(names: &Names, wanted: Use, begun: u32, pair: Pair) -> Result<Laid, AllocError>
    ensures { IfOk result (λ r. laid_view r ≡ after_pair (names_view names.now) wanted begun (pair_view pair)) }
{
    operation_laid(names, wanted, begun, pair.next, pair.top)
}

/// A result by way of an index that is scaled.
pub fn moved_laid(
    names: &Names,
    wanted: Use,
    begun: u32,
    size: u64,
    index: Operand,
    pair: Pair,
) -> Result<Laid, AllocError>
    ensures { IfOk result (λ r.
        laid_view r ≡ moved_laid (names_view names.now) wanted begun size (operand_view index) (pair_view pair)) }
{
    let free = given!(behind_move(is_scaled(size, index), pair.next));
    operation_laid(names, wanted, begun, free, pair.top)
}

/// A result of one or two instructions.
pub fn steps_laid(
    names: &Names,
    wanted: Use,
    two: bool,
    begun: u32,
    pair: Pair,
) -> Result<Laid, AllocError>
    ensures { IfOk result (λ r. laid_view r ≡ steps_laid (names_view names.now) wanted two begun (pair_view pair)) }
{
    let free = given!(behind_move(two, pair.next));
    operation_laid(names, wanted, begun, free, greater(pair.top, free))
}

/// A comparison; where it is tested nothing writes it.
pub fn compared_laid(
    names: &Names,
    wanted: Use,
    two: bool,
    begun: u32,
    pair: Pair,
) -> Result<Laid, AllocError>
    ensures { IfOk result (λ r. laid_view r ≡ compared_laid (names_view names.now) wanted two begun (pair_view pair)) }
{
    match wanted {
        Use::Tested => Ok(unused_laid(pair.next, pair.top)),
        _ => steps_laid(names, wanted, two, begun, pair),
    }
}

/// A conversion of a value that stands.
pub fn converted_laid(
    names: &Names,
    wanted: Use,
    to: IntegerType,
    begun: u32,
    laid: Laid,
) -> Result<Laid, AllocError>
    ensures { IfOk result (λ r. laid_view r ≡ converted_laid (names_view names.now) wanted to begun (laid_view laid)) }
{
    if is_kept_constant(to, laid.value) {
        Ok(standing(names, wanted, begun, laid))
    } else {
        operation_laid(names, wanted, begun, laid.next, laid.top)
    }
}

/// Where the operands of `&&` and `||` begin: behind the name that the value stands in.
pub fn behind_own(wanted: Use, begun: u32) -> Result<u32, AllocError>
    ensures { IfOk result (λ next. next ≡ behind_own wanted begun) }
{
    match wanted {
        Use::Tested => Ok(begun),
        _ => following(begun),
    }
}

/// A value in a name that arms wrote.
pub fn joined_laid(names: &Names, wanted: Use, own: u32, top: u32) -> Result<Laid, AllocError>
    ensures { IfOk result (λ r. laid_view r ≡ joined_laid (names_view names.now) wanted own top) }
{
    let behind = given!(following(own));
    let laid = Laid {
        value: Operand::Name(Name(own)),
        next: pick(names, behind, top),
        top,
    };
    Ok(standing(names, wanted, own, laid))
}

/// A truth value in a name that arms wrote, or one that was tested.
pub fn truth_laid(names: &Names, wanted: Use, own: u32, top: u32) -> Result<Laid, AllocError>
    ensures { IfOk result (λ r. laid_view r ≡ truth_laid (names_view names.now) wanted own top) }
{
    match wanted {
        Use::Tested => Ok(unused_laid(own, top)),
        _ => joined_laid(names, wanted, own, top),
    }
}

/// A value, behind other names that were used.
pub fn behind_top(top: u32, laid: Laid) -> Laid
    ensures { laid_view result ≡ behind_top top (laid_view laid) }
{
    Laid {
        value: laid.value,
        next: laid.next,
        top: greater(top, laid.top),
    }
}

/// Where an object is found whose address stands in a value.
pub fn at_laid(laid: Laid) -> PlaceLaid
    ensures { place_view result ≡ at_laid (laid_view laid) }
{
    PlaceLaid {
        location: Location::At(laid.value),
        next: laid.next,
        top: laid.top,
    }
}
