//! Where the values of expressions stand: names are numbered as they are made, from left to right.

ghost use Rattle.std.specs.Prelude.{◌≡◌, ◌+◌, ◌++◌, IfOk, OnOk, map, not, ◌==◌, if◌then◌else◌};
ghost use Rattle.c_tree.specs.TypedExpressions.{Conditional, Convert, arguments_view, lvalue_view, rvalue_view};
ghost use Rattle.c_type_rules.specs.Integers.{object_size};
ghost use Rattle.graph_core.specs.Graphs.{location_view, operand_view};
ghost use Rattle.graph_build_names.specs.Names.{names_view, scalar_named};
ghost use Rattle.graph_build_names.specs.Writes.{writes};
ghost use Rattle.graph_build_layout.specs.Laid as spec;
ghost use Rattle.graph_build_layout.specs.Laid.{laid_view, pair, pair_view, passed_view, place_view};
ghost use Rattle.graph_build_layout.specs.declared.laid.Use.TheVariants.{Anywhere, Tested};
ghost use Rattle.graph_build_layout.specs.Layout.{address_laid, laid, named_address, named_location, passed_laid, place_laid, scales};

use crate::{
    Laid, Pair, PassedLaid, PlaceLaid, Use, after_pair, as_value, at_laid, behind_move, behind_own,
    behind_top, behind_two, called_laid, compared_laid, converted_laid, greater, joined_laid,
    leaf_laid, left_memory_laid, left_scalar_laid, moved_laid, object_laid, operation_laid,
    renewed_memory_laid, renewed_scalar_laid, standing, steps_laid, truth_laid, unused_laid,
    use_for, worked,
};
use c_tree::{Arguments, Given, IntegerType, Lvalue, Object, ObjectType, Rvalue, Sign};
use c_type_rules::{given_by, integer_in, is_void, object_size, type_of};
use graph_build_names::{
    Names, following, held, is_location_moved, is_moved, is_moved_before, is_narrow, is_scaled,
    is_two, is_two_pointers, keeps_bits, object_location, object_of, pick, scalar_named, word_of,
    writes,
};
use graph_core::{Location, Name, Operand};
use smallvec::SmallVec;
use std::alloc::{AllocError, Global};

// What a call gives; its failure is the function's own.
macro_rules! given {
    ($call:expr) => {
        match $call {
            Ok(value) => value,
            Err(fault) => return Err(fault),
        }
    };
}

/// The first name that is free behind arguments, and the first one behind all that were used.
#[derive(Clone, Copy)]
struct Reached {
    next: u32,
    top: u32,
}

/// The first name behind a condition and two arms, and the first one behind the arms alone.
#[derive(Clone, Copy)]
struct Arms {
    all: u32,
    arms: u32,
}

/// Where two values stand that are computed in turn, from where the first one stands.
#[cycle(laid)]
pub fn pair_behind(
    names: &Names,
    _a: &Rvalue,
    one: Laid,
    b: &Rvalue,
    _begun: u32,
) -> Result<Pair, AllocError>
    requires { laid_view one ≡ laid (names_view names.now) (rvalue_view _a.now) Anywhere _begun }
    ensures { IfOk result (λ q.
        pair_view q ≡ pair (λ y. writes (names_view names.now) y (rvalue_view b.now))
        (laid (names_view names.now) (rvalue_view _a.now) Anywhere _begun)
        (laid (names_view names.now) (rvalue_view b.now) Anywhere)) }
{
    let moved = is_moved(names, one.value, b);
    let from = given!(behind_move(moved, one.next));
    let other = given!(value_laid(names, b, Use::Anywhere, from));
    Ok(Pair {
        first: one.value,
        left: held(moved, one.value, one.next),
        right: other.value,
        moved,
        moved_to: one.next,
        from,
        next: other.next,
        top: greater(one.top, greater(from, other.top)),
    })
}

/// Where two values stand that are computed in turn.
#[cycle(laid)]
fn pair_laid(names: &Names, a: &Rvalue, b: &Rvalue, begun: u32) -> Result<Pair, AllocError>
    ensures { IfOk result (λ q.
        pair_view q ≡ pair (λ y. writes (names_view names.now) y (rvalue_view b.now))
        (laid (names_view names.now) (rvalue_view a.now) Anywhere begun)
        (laid (names_view names.now) (rvalue_view b.now) Anywhere)) }
{
    let one = given!(value_laid(names, a, Use::Anywhere, begun));
    pair_behind(names, a, one, b, begun)
}

/// Where an element stands whose pointer comes first, or its index.
#[cycle(laid)]
fn element_laid(
    names: &Names,
    wanted: Use,
    of: ObjectType,
    first: &Rvalue,
    second: &Rvalue,
    index_first: bool,
    begun: u32,
) -> Result<Laid, AllocError>
    ensures { let q = pair (λ y.
        writes (names_view names.now) y (rvalue_view second.now)) (laid (names_view names.now)
        (rvalue_view first.now) Anywhere begun) (laid (names_view names.now) (rvalue_view second.now)
        Anywhere) in IfOk result (λ r. laid_view r ≡ spec.moved_laid (names_view names.now) wanted begun
        (object_size of) (if index_first then q.left else q.right) q) }
{
    let pair = given!(pair_laid(names, first, second, begun));
    let index = if index_first { pair.left } else { pair.right };
    moved_laid(names, wanted, begun, object_size(of), index, pair)
}

/// Where the object in memory is found that an lvalue designates.
#[cycle(laid)]
pub fn place_laid(names: &Names, l: &Lvalue, begun: u32) -> Result<PlaceLaid, AllocError>
    ensures { IfOk result (λ q. place_view q ≡ place_laid (names_view names.now) (lvalue_view l.now) begun) }
{
    match l {
        Lvalue::Named { object, .. } => {
            let location = given!(named_location(names, *object));
            Ok(PlaceLaid {
                location,
                next: begun,
                top: begun,
            })
        }
        Lvalue::Target { .. } | Lvalue::Element { .. } | Lvalue::ElementFrom { .. } => {
            let address = given!(address_laid(names, l, Use::Anywhere, begun));
            Ok(at_laid(address))
        }
    }
}

/// Where an object stands in memory.
fn named_location(names: &Names, object: Object) -> Result<Location, AllocError>
    ensures { IfOk result (λ l. location_view l ≡ named_location (names_view names.now) object) }
{
    match object {
        Object::Static(number) => Ok(Location::Static(number)),
        Object::Literal(number) => Ok(Location::Static(given!(literal(names, number)))),
        Object::Automatic(variable) => Ok(object_location(names, variable)),
    }
}

/// The number of a literal among the static objects.
fn literal(names: &Names, number: u32) -> Result<u32, AllocError>
    ensures { IfOk result (λ object. object ≡ (names_view names.now).statics + number) }
{
    match names.statics.checked_add(number) {
        None => Err(AllocError),
        Some(object) => Ok(object),
    }
}

/// Where the address of an object stands.
fn named_address(names: &Names, object: Object, wanted: Use, begun: u32) -> Result<Laid, AllocError>
    ensures { IfOk result (λ r. laid_view r ≡ named_address (names_view names.now) object wanted begun) }
{
    let object = match object {
        Object::Automatic(variable) => {
            return object_laid(names, wanted, object_of(names, variable), begun);
        }
        Object::Static(number) => number,
        Object::Literal(number) => given!(literal(names, number)),
    };
    let address = Operand::StaticAddress { object, offset: 0 };
    Ok(leaf_laid(names, wanted, address, begun))
}

/// Where the address of the object stands that an lvalue designates.
#[cycle(laid)]
fn address_laid(names: &Names, l: &Lvalue, wanted: Use, begun: u32) -> Result<Laid, AllocError>
    ensures { IfOk result (λ r. laid_view r ≡ address_laid (names_view names.now) (lvalue_view l.now) wanted begun) }
{
    match l {
        Lvalue::Named { object, .. } => named_address(names, *object, wanted, begun),
        Lvalue::Target { pointer, .. } => value_laid(names, pointer, worked(wanted), begun),
        Lvalue::Element { of, pointer, index } => {
            element_laid(names, wanted, *of, pointer, index, false, begun)
        }
        Lvalue::ElementFrom { of, index, pointer } => {
            element_laid(names, wanted, *of, index, pointer, true, begun)
        }
    }
}

/// What is left of a list of arguments' values: the names that are free behind it, and all that were used.
#[cycle(laid)]
fn arguments_laid(names: &Names, all: &Arguments, begun: u32) -> Result<Reached, AllocError>
    ensures next { IfOk result (λ r. r.next ≡ (passed_laid (names_view names.now) (arguments_view all.now) begun).next) }
    ensures top { IfOk result (λ r. r.top ≡ (passed_laid (names_view names.now) (arguments_view all.now) begun).top) }
{
    match all {
        Arguments::End => Ok(Reached {
            next: begun,
            top: begun,
        }),
        Arguments::More(first, rest) => {
            let one = given!(value_laid(names, first, Use::Anywhere, begun));
            let moved = is_moved_before(names, one.value, rest);
            let from = given!(behind_move(moved, one.next));
            let behind = given!(arguments_laid(names, rest, from));
            Ok(Reached {
                next: behind.next,
                top: greater(one.top, greater(from, behind.top)),
            })
        }
    }
}

/// `&&` and `||`.
#[cycle(laid)]
fn both_laid(
    names: &Names,
    a: &Rvalue,
    b: &Rvalue,
    wanted: Use,
    begun: u32,
) -> Result<Laid, AllocError>
    ensures { IfOk result (λ r.
        laid_view r ≡ spec.both_laid (names_view names.now) wanted begun
        (laid (names_view names.now) (rvalue_view a.now) Tested)
        (laid (names_view names.now) (rvalue_view b.now) Tested)) }
{
    let start = given!(behind_own(wanted, begun));
    let one = given!(value_laid(names, a, Use::Tested, start));
    let other = given!(value_laid(names, b, Use::Tested, pick(names, start, one.top)));
    truth_laid(names, wanted, begun, greater(one.top, other.top))
}

/// The names behind a condition and two arms, and behind the arms alone.
#[cycle(laid)]
fn arms_laid(
    names: &Names,
    condition: &Rvalue,
    chosen: &Rvalue,
    other: &Rvalue,
    wanted: Use,
    start: u32,
) -> Result<Arms, AllocError>
    ensures all { IfOk result (λ r.
        r.all ≡ spec.choice_top (names_view names.now) start
        (laid (names_view names.now) (rvalue_view condition.now) Tested start)
        (laid (names_view names.now) (rvalue_view chosen.now) wanted)
        (laid (names_view names.now) (rvalue_view other.now) wanted)) }
    ensures arms { IfOk result (λ r.
        r.arms ≡ spec.arms_top (names_view names.now) start
        (laid (names_view names.now) (rvalue_view condition.now) Tested start)
        (laid (names_view names.now) (rvalue_view chosen.now) wanted)
        (laid (names_view names.now) (rvalue_view other.now) wanted)) }
{
    let test = given!(value_laid(names, condition, Use::Tested, start));
    let one = given!(value_laid(names, chosen, wanted, pick(names, start, test.top)));
    let last = given!(value_laid(names, other, wanted, pick(names, start, one.top)));
    let arms = greater(one.top, last.top);
    Ok(Arms {
        all: greater(test.top, arms),
        arms,
    })
}

/// `?:`
#[cycle(laid)]
fn conditional_laid(
    names: &Names,
    condition: &Rvalue,
    chosen: &Rvalue,
    other: &Rvalue,
    wanted: Use,
    begun: u32,
) -> Result<Laid, AllocError>
    ensures { IfOk result (λ r.
        laid_view r ≡ laid (names_view names.now)
        (Conditional (rvalue_view condition.now) (rvalue_view chosen.now) (rvalue_view other.now)) wanted begun) }
{
    if is_void(type_of(&names.results, chosen)) {
        let unused = Use::Nothing;
        let top = given!(arms_laid(names, condition, chosen, other, unused, begun));
        return Ok(unused_laid(pick(names, begun, top.arms), top.all));
    }
    let start = given!(following(begun));
    let own = Use::In(begun);
    let top = given!(arms_laid(names, condition, chosen, other, own, start));
    joined_laid(names, wanted, begun, top.all)
}

/// `a=b`
#[cycle(laid)]
fn assigned_laid(
    names: &Names,
    target: &Lvalue,
    value: &Rvalue,
    wanted: Use,
    begun: u32,
) -> Result<Laid, AllocError>
    ensures { let scalar = scalar_named (names_view names.now) (lvalue_view target.now) in let place = place_laid
        (names_view names.now) (lvalue_view target.now) begun in IfOk result
        (λ r. laid_view r ≡ spec.assigned_laid (names_view names.now) wanted scalar begun place (laid
        (names_view names.now) (rvalue_view value.now) (spec.use_for scalar wanted)
        (spec.begun_at scalar begun (λ y. writes (names_view names.now) y (rvalue_view value.now)) place))) }
{
    match scalar_named(names, target) {
        Some(x) => {
            let laid = given!(value_laid(names, value, Use::In(x), begun));
            let assigned = Laid {
                value: Operand::Name(Name(x)),
                next: laid.next,
                top: laid.top,
            };
            Ok(standing(names, wanted, begun, assigned))
        }
        None => {
            let place = given!(place_laid(names, target, begun));
            let moved = is_location_moved(names, place.location, value);
            let from = given!(behind_move(moved, place.next));
            let laid = given!(value_laid(names, value, use_for(None, wanted), from));
            Ok(behind_top(place.top, laid))
        }
    }
}

/// `a op= b`, where an index of elements of so many bytes is added to a pointer.
#[cycle(laid)]
fn updated_laid(
    names: &Names,
    target: &Lvalue,
    value: &Rvalue,
    narrow: bool,
    element: Option<ObjectType>,
    wanted: Use,
    begun: u32,
) -> Result<Laid, AllocError>
    ensures { let scalar = scalar_named (names_view names.now) (lvalue_view target.now) in let place = place_laid
        (names_view names.now) (lvalue_view target.now) begun in let by = laid (names_view names.now)
        (rvalue_view value.now) Anywhere
        (spec.begun_behind scalar begun (λ y. writes (names_view names.now) y (rvalue_view value.now)) place) in
        IfOk result
        (λ r. laid_view r ≡ spec.updated_laid (names_view names.now) wanted narrow (scales element by.value) scalar
        begun place by) }
{
    match scalar_named(names, target) {
        Some(x) => {
            let from = given!(behind_move(writes(names, x, value), begun));
            let by = given!(value_laid(names, value, Use::Anywhere, from));
            let free = given!(behind_two(scales(element, by.value), narrow, by.next));
            Ok(renewed_scalar_laid(names, wanted, x, begun, free, by.top))
        }
        None => {
            let place = given!(place_laid(names, target, begun));
            let moved = is_location_moved(names, place.location, value);
            let behind = given!(following(place.next));
            let from = given!(behind_move(moved, behind));
            let by = given!(value_laid(names, value, Use::Anywhere, from));
            let free = given!(behind_two(scales(element, by.value), narrow, by.next));
            renewed_memory_laid(names, wanted, free, by.top, place)
        }
    }
}

/// Whether an operand is an index that is scaled by an instruction.
fn scales(element: Option<ObjectType>, index: Operand) -> bool
    ensures { result ≡ scales element (operand_view index) }
{
    match element {
        None => false,
        Some(of) => is_scaled(object_size(of), index),
    }
}

/// Whether elements have more than one byte.
fn is_wide(of: ObjectType) -> bool
    ensures { result ≡ not (object_size of == 1) }
{
    object_size(of) != 1
}

/// `++` and `--`
#[cycle(laid)]
fn step_laid(
    names: &Names,
    given: Given,
    target: &Lvalue,
    narrow: bool,
    wanted: Use,
    begun: u32,
) -> Result<Laid, AllocError>
    ensures { IfOk result (λ r.
        laid_view r ≡ spec.step_laid (names_view names.now) given wanted narrow
        (scalar_named (names_view names.now) (lvalue_view target.now)) begun
        (place_laid (names_view names.now) (lvalue_view target.now) begun)) }
{
    match scalar_named(names, target) {
        Some(x) => match given {
            Given::New => {
                let free = given!(behind_move(narrow, begun));
                Ok(renewed_scalar_laid(names, wanted, x, begun, free, begun))
            }
            Given::Old => left_scalar_laid(names, wanted, narrow, x, begun),
        },
        None => {
            let place = given!(place_laid(names, target, begun));
            match given {
                Given::New => {
                    let behind = given!(following(place.next));
                    let free = given!(behind_move(narrow, behind));
                    renewed_memory_laid(names, wanted, free, place.top, place)
                }
                Given::Old => left_memory_laid(names, wanted, narrow, begun, place),
            }
        }
    }
}

/// What an object holds.
#[cycle(laid)]
fn loaded_laid(names: &Names, from: &Lvalue, wanted: Use, begun: u32) -> Result<Laid, AllocError>
    ensures { IfOk result (λ r.
        laid_view r ≡ spec.loaded_laid (names_view names.now) wanted
        (scalar_named (names_view names.now) (lvalue_view from.now)) begun
        (place_laid (names_view names.now) (lvalue_view from.now) begun)) }
{
    match scalar_named(names, from) {
        Some(x) => Ok(leaf_laid(names, wanted, Operand::Name(Name(x)), begun)),
        None => {
            let place = given!(place_laid(names, from, begun));
            operation_laid(names, wanted, begun, place.next, place.top)
        }
    }
}

/// An operation on one value.
#[cycle(laid)]
fn one_laid(names: &Names, operand: &Rvalue, wanted: Use, begun: u32) -> Result<Laid, AllocError>
    ensures { let one = laid (names_view names.now) (rvalue_view operand.now) Anywhere begun in IfOk result (λ r.
        laid_view r ≡ spec.operation_laid (names_view names.now) wanted begun one.next one.top) }
{
    let one = given!(value_laid(names, operand, Use::Anywhere, begun));
    operation_laid(names, wanted, begun, one.next, one.top)
}

/// Integer arithmetic.
#[cycle(laid)]
fn arithmetic_laid(
    names: &Names,
    left: &Rvalue,
    right: &Rvalue,
    wanted: Use,
    begun: u32,
) -> Result<Laid, AllocError>
    ensures { IfOk result (λ r.
        laid_view r ≡ spec.after_pair (names_view names.now) wanted begun (pair
        (λ y. writes (names_view names.now) y (rvalue_view right.now))
        (laid (names_view names.now) (rvalue_view left.now) Anywhere begun)
        (laid (names_view names.now) (rvalue_view right.now) Anywhere))) }
{
    let pair = given!(pair_laid(names, left, right, begun));
    after_pair(names, wanted, begun, pair)
}

/// How many elements lie between two pointers.
#[cycle(laid)]
fn difference_laid(
    names: &Names,
    of: ObjectType,
    left: &Rvalue,
    right: &Rvalue,
    wanted: Use,
    begun: u32,
) -> Result<Laid, AllocError>
    ensures { IfOk result (λ r.
        laid_view r ≡ spec.steps_laid (names_view names.now) wanted (not (object_size of == 1)) begun (pair
        (λ y. writes (names_view names.now) y (rvalue_view right.now))
        (laid (names_view names.now) (rvalue_view left.now) Anywhere begun)
        (laid (names_view names.now) (rvalue_view right.now) Anywhere))) }
{
    let pair = given!(pair_laid(names, left, right, begun));
    steps_laid(names, wanted, is_wide(of), begun, pair)
}

/// A conversion.
#[cycle(laid)]
fn conversion_laid(
    names: &Names,
    to: IntegerType,
    operand: &Rvalue,
    wanted: Use,
    begun: u32,
) -> Result<Laid, AllocError>
    ensures { IfOk result
        (λ r. laid_view r ≡ laid (names_view names.now) (Convert to (rvalue_view operand.now)) wanted begun) }
{
    if keeps_bits(integer_in(type_of(&names.results, operand)), to) {
        return value_laid(names, operand, as_value(wanted), begun);
    }
    let one = given!(value_laid(names, operand, Use::Anywhere, begun));
    converted_laid(names, wanted, to, begun, one)
}

/// Where the value of an expression stands that begins to be computed when a name is free. Want of memory also answers
/// names from 2^32 on.
#[cycle(laid)]
pub fn value_laid(names: &Names, e: &Rvalue, wanted: Use, begun: u32) -> Result<Laid, AllocError>
    ensures { IfOk result (λ r. laid_view r ≡ laid (names_view names.now) (rvalue_view e.now) wanted begun) }
{
    match e {
        Rvalue::Constant { value, .. } => {
            let word = Operand::Constant(word_of(*value));
            Ok(leaf_laid(names, wanted, word, begun))
        }
        Rvalue::Null => Ok(leaf_laid(names, wanted, Operand::Constant(0), begun)),
        Rvalue::Load { from, .. } => loaded_laid(names, from, wanted, begun),
        Rvalue::Decay(from) | Rvalue::AddressOf(from) => address_laid(names, from, wanted, begun),
        Rvalue::Convert { to, operand } => conversion_laid(names, *to, operand, wanted, begun),
        Rvalue::Discard(operand) => value_laid(names, operand, Use::Nothing, begun),
        Rvalue::Signed { sign, operand, .. } => match sign {
            Sign::Plus => value_laid(names, operand, as_value(wanted), begun),
            Sign::Minus | Sign::Complement => one_laid(names, operand, wanted, begun),
        },
        Rvalue::Not(operand) => match wanted {
            Use::Tested => value_laid(names, operand, Use::Tested, begun),
            _ => one_laid(names, operand, wanted, begun),
        },
        Rvalue::Arithmetic { left, right, .. } => {
            arithmetic_laid(names, left, right, wanted, begun)
        }
        Rvalue::Compare {
            operator,
            left,
            right,
            ..
        } => {
            let pair = given!(pair_laid(names, left, right, begun));
            compared_laid(names, wanted, is_two(*operator), begun, pair)
        }
        Rvalue::ComparePointers {
            operator,
            left,
            right,
        } => {
            let pair = given!(pair_laid(names, left, right, begun));
            compared_laid(names, wanted, is_two_pointers(*operator), begun, pair)
        }
        Rvalue::Move {
            element,
            pointer,
            by,
            ..
        } => element_laid(names, wanted, *element, pointer, by, false, begun),
        Rvalue::MoveFrom {
            by,
            element,
            pointer,
        } => element_laid(names, wanted, *element, by, pointer, true, begun),
        Rvalue::Difference {
            element,
            left,
            right,
        } => difference_laid(names, *element, left, right, wanted, begun),
        Rvalue::And(left, right) | Rvalue::Or(left, right) => {
            both_laid(names, left, right, wanted, begun)
        }
        Rvalue::Conditional {
            condition,
            then,
            otherwise,
        } => conditional_laid(names, condition, then, otherwise, wanted, begun),
        Rvalue::Comma(left, right) => {
            let one = given!(value_laid(names, left, Use::Nothing, begun));
            let other = given!(value_laid(names, right, wanted, pick(names, begun, one.top)));
            Ok(behind_top(one.top, other))
        }
        Rvalue::Assign { target, value, .. } => {
            assigned_laid(names, target, value, wanted, begun)
        }
        Rvalue::Update {
            target_type,
            target,
            value,
            ..
        } => updated_laid(
            names,
            target,
            value,
            is_narrow(*target_type),
            None,
            wanted,
            begun,
        ),
        Rvalue::UpdatePointer {
            element,
            target,
            by,
            ..
        } => updated_laid(names, target, by, false, Some(*element), wanted, begun),
        Rvalue::Step {
            given,
            target_type,
            target,
            ..
        } => step_laid(
            names,
            *given,
            target,
            is_narrow(*target_type),
            wanted,
            begun,
        ),
        Rvalue::StepPointer { given, target, .. } => {
            step_laid(names, *given, target, false, wanted, begun)
        }
        Rvalue::Call { callee, arguments } => {
            let behind = given!(arguments_laid(names, arguments, begun));
            let void = is_void(given_by(&names.results, *callee));
            called_laid(names, wanted, void, begun, behind.next, behind.top)
        }
    }
}

/// The values of arguments, behind those that stand.
fn add_arguments(
    names: &Names,
    all: &Arguments,
    begun: u32,
    values: &mut SmallVec<Operand, 4>,
) -> Result<Reached, AllocError>
    ensures next { IfOk result (λ r. r.next ≡ (passed_laid (names_view names.now) (arguments_view all.now) begun).next) }
    ensures top { IfOk result (λ r. r.top ≡ (passed_laid (names_view names.now) (arguments_view all.now) begun).top) }
    ensures values { OnOk result
        (map operand_view values.new.items ≡ map operand_view values.old.items
        ++ (passed_laid (names_view names.now) (arguments_view all.now) begun).values) }
{
    match all {
        Arguments::End => Ok(Reached {
            next: begun,
            top: begun,
        }),
        Arguments::More(first, rest) => {
            let one = given!(value_laid(names, first, Use::Anywhere, begun));
            let moved = is_moved_before(names, one.value, rest);
            let from = given!(behind_move(moved, one.next));
            values.push(held(moved, one.value, one.next))?;
            let behind = given!(add_arguments(names, rest, from, values));
            Ok(Reached {
                next: behind.next,
                top: greater(one.top, greater(from, behind.top)),
            })
        }
    }
}

/// Where the values of arguments stand. Want of memory also answers names from 2^32 on.
pub fn passed_laid(
    alloc: Global,
    names: &Names,
    all: &Arguments,
    begun: u32,
) -> Result<PassedLaid, AllocError>
    ensures { IfOk result (λ q. passed_view q ≡ passed_laid (names_view names.now) (arguments_view all.now) begun) }
{
    let mut values = SmallVec::new(alloc);
    let behind = given!(add_arguments(names, all, begun, &mut values));
    Ok(PassedLaid {
        values,
        next: behind.next,
        top: behind.top,
    })
}
