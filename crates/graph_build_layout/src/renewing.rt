//! Where the new and the old values of what is updated stand.

ghost use Rattle.std.specs.Prelude.{◌≡◌, IfOk, max};
ghost use Rattle.graph_build_names.specs.Names.{names_view, pick};
ghost use Rattle.graph_core.specs.Graphs as form;
ghost use Rattle.graph_build_layout.specs.Laid.{behind_move, laid_view, left_memory_laid, left_scalar_laid, old_laid, place_view, renewed_memory_laid, renewed_scalar_laid, called_laid, object_laid};

use crate::joining::{behind_move, greater, leaf_laid, operation_laid, standing, unused_laid};
use crate::laid::{Laid, PlaceLaid, Use};
use graph_build_names::{Names, following, pick};
use graph_core::{Name, Operand};
use std::alloc::AllocError;

// What a call gives; its failure is the function's own.
macro_rules! given {
    ($call:expr) => {
        match $call {
            Ok(value) => value,
            Err(fault) => return Err(fault),
        }
    };
}

/// The first name that is free behind an index that may be scaled and a value that may be truncated.
pub fn behind_two(scales: bool, narrow: bool, next: u32) -> Result<u32, AllocError>
    ensures { IfOk result (λ free. free ≡ behind_move narrow (behind_move scales next)) }
{
    let scaled = given!(behind_move(scales, next));
    behind_move(narrow, scaled)
}

/// The new value of a scalar.
pub fn renewed_scalar_laid(
    names: &Names,
    wanted: Use,
    x: u32,
    begun: u32,
    free: u32,
    top: u32,
) -> Laid
    ensures { laid_view result ≡ renewed_scalar_laid (names_view names.now) wanted x begun free top }
{
    let laid = Laid {
        value: Operand::Name(Name(x)),
        next: pick(names, begun, free),
        top: greater(top, free),
    };
    standing(names, wanted, begun, laid)
}

/// The new value of what is in memory.
pub fn renewed_memory_laid(
    names: &Names,
    wanted: Use,
    free: u32,
    top: u32,
    place: PlaceLaid,
) -> Result<Laid, AllocError>
    ensures { IfOk result
        (λ r. laid_view r ≡ renewed_memory_laid (names_view names.now) wanted free top (place_view place)) }
{
    let all = greater(greater(place.top, top), free);
    operation_laid(names, wanted, place.next, free, all)
}

/// The old value of a scalar, which is moved where it is wanted.
fn old_laid(wanted: Use, x: u32, begun: u32) -> Result<Laid, AllocError>
    ensures { IfOk result (λ r. laid_view r ≡ old_laid wanted x begun) }
{
    let (name, is_taken) = match wanted {
        Use::Nothing => (x, false),
        Use::In(y) if y != x => (y, false),
        _ => (begun, true),
    };
    let next = given!(behind_move(is_taken, begun));
    Ok(Laid {
        value: Operand::Name(Name(name)),
        next,
        top: next,
    })
}

/// A scalar's old value that is left where it is wanted, behind its new one.
pub fn left_scalar_laid(
    names: &Names,
    wanted: Use,
    narrow: bool,
    x: u32,
    begun: u32,
) -> Result<Laid, AllocError>
    ensures { IfOk result (λ r. laid_view r ≡ left_scalar_laid (names_view names.now) wanted narrow x begun) }
{
    let old = given!(old_laid(wanted, x, begun));
    let free = given!(behind_move(narrow, old.next));
    let laid = Laid {
        value: old.value,
        next: pick(names, old.next, free),
        top: greater(old.top, free),
    };
    Ok(standing(names, wanted, begun, laid))
}

/// The old value of what is in memory, where it is computed in a name that wants it.
fn left_in_laid(names: &Names, name: u32, again: u32, free: u32, top: u32) -> Laid
    ensures { laid_view result ≡ record
        { value = form.Name name; next = pick (names_view names.now) again free; top = max top free } }
{
    Laid {
        value: Operand::Name(Name(name)),
        next: pick(names, again, free),
        top: greater(top, free),
    }
}

/// The old value of what is in memory, which is left where it is wanted.
pub fn left_memory_laid(
    names: &Names,
    wanted: Use,
    narrow: bool,
    begun: u32,
    place: PlaceLaid,
) -> Result<Laid, AllocError>
    ensures { IfOk result
        (λ r. laid_view r ≡ left_memory_laid (names_view names.now) wanted narrow begun (place_view place)) }
{
    let behind = given!(following(place.next));
    match wanted {
        Use::In(y) => {
            let free = given!(behind_move(narrow, behind));
            Ok(left_in_laid(names, y, begun, free, place.top))
        }
        _ => {
            let second = given!(following(behind));
            let free = given!(behind_move(narrow, second));
            Ok(left_in_laid(names, place.next, behind, free, place.top))
        }
    }
}

/// A call's value: none where it gives nothing or nothing uses what it gives.
pub fn called_laid(
    names: &Names,
    wanted: Use,
    void: bool,
    begun: u32,
    next: u32,
    top: u32,
) -> Result<Laid, AllocError>
    ensures { IfOk result (λ r. laid_view r ≡ called_laid (names_view names.now) wanted void begun next top) }
{
    if void || matches!(wanted, Use::Nothing) {
        return Ok(unused_laid(pick(names, begun, next), top));
    }
    operation_laid(names, wanted, begun, next, top)
}

/// The address of the object of a variable.
pub fn object_laid(
    names: &Names,
    wanted: Use,
    object: Option<u32>,
    begun: u32,
) -> Result<Laid, AllocError>
    ensures { IfOk result (λ r. laid_view r ≡ object_laid (names_view names.now) wanted object begun) }
{
    match object {
        None => Ok(leaf_laid(names, wanted, Operand::Constant(0), begun)),
        Some(_) => operation_laid(names, wanted, begun, begun, begun),
    }
}
