//! Where the parts of expressions begin and stand, found together before their code is made.

ghost use Rattle.std.specs.Prelude.{◌≡◌, IfOk, map, not};
ghost use Rattle.c_tree.specs.TypedExpressions.{arguments_view, lvalue_view, rvalue_view};
ghost use Rattle.c_type_rules.specs.ValueTypes as types;
ghost use Rattle.graph_build_layout.specs.Chains.{lefts};
ghost use Rattle.graph_build_layout.specs.Laid.{behind_move, behind_own, laid_view, place_view};
ghost use Rattle.graph_build_layout.specs.Layout.{laid, place_laid};
ghost use Rattle.graph_build_names.specs.Names as named;
ghost use Rattle.graph_build_names.specs.Names.{names_view};
ghost use Rattle.graph_build_names.specs.Writes as written;
ghost use Rattle.graph_build_layout.specs.declared.laid.Use.TheVariants.{Anywhere, Tested};
ghost use Rattle.graph_build_steps.specs.Steps.{arm_use};

use c_tree::{Arguments, Lvalue, Rvalue};
use c_type_rules::{is_void, type_of};
use graph_build_layout::{
    Laid, PlaceLaid, Use, behind_move, behind_own, lefts_laid, place_laid, value_laid,
};
use graph_build_names::{Names, is_location_moved, is_moved_before, pick};
use graph_build_steps::arm_use;
use std::alloc::{AllocError, Global};

// What a call gives; its failure is the function's own.
macro_rules! given {
    ($call:expr) => {
        match $call {
            Ok(value) => value,
            Err(fault) => return Err(fault),
        }
    };
}

/// A left operand, and the left operands within it.
#[derive(Drop)]
pub struct ChainLaid {
    pub one: Laid,
    /// Its own left operand first, then that one's, and so on.
    pub known: Vec<Laid>,
}

/// A value that begins behind a name which is taken or not.
#[derive(Clone, Copy)]
pub struct LaterLaid {
    /// The name that is free where it begins.
    pub from: u32,
    pub value: Laid,
}

/// An object in memory that is written, and the value on the right side.
#[derive(Clone, Copy)]
pub struct WrittenLaid {
    pub place: PlaceLaid,
    /// Whether its location is moved, since the right side writes what it is found by.
    pub moved: bool,
    pub right: LaterLaid,
}

/// The names that are free where the parts of `?:` begin.
#[derive(Clone, Copy)]
pub struct ArmsLaid {
    /// Whether the arms have no value.
    pub is_void: bool,
    pub at: u32,
    pub at_then: u32,
    pub at_other: u32,
}

/// An argument, and where those behind it begin.
#[derive(Clone, Copy)]
pub struct ArgumentLaid {
    pub value: Laid,
    /// Whether it is moved, since a later argument writes it.
    pub moved: bool,
    pub behind: u32,
}

/// A left operand and those within it, from a name on that is free.
pub fn chain_laid(
    alloc: Global,
    names: &Names,
    left: &Rvalue,
    wanted: Use,
    begun: u32,
) -> Result<ChainLaid, AllocError>
    ensures one { IfOk result (λ c. laid_view c.one ≡ laid (names_view names.now) (rvalue_view left.now) wanted begun) }
    ensures known { IfOk result (λ c.
        map laid_view c.known.items ≡ lefts (names_view names.now) (rvalue_view left.now) wanted begun) }
{
    let mut known = Vec::new(alloc);
    let one = given!(lefts_laid(names, left, wanted, begun, &mut known));
    known.reverse();
    Ok(ChainLaid { one, known })
}

/// The first operand of `&&` or `||` and those within it, behind the name of the whole value if that stands in one.
pub fn tested_laid(
    alloc: Global,
    names: &Names,
    left: &Rvalue,
    wanted: Use,
    begun: u32,
) -> Result<ChainLaid, AllocError>
    ensures one { IfOk result (λ c.
        laid_view c.one ≡ laid (names_view names.now) (rvalue_view left.now) Tested (behind_own wanted begun)) }
    ensures known { IfOk result (λ c.
        map laid_view c.known.items ≡ lefts (names_view names.now) (rvalue_view left.now) Tested
        (behind_own wanted begun)) }
{
    let at = given!(behind_own(wanted, begun));
    chain_laid(alloc, names, left, Use::Tested, at)
}

/// A value behind a name, if that is taken.
pub fn later_laid(
    names: &Names,
    value: &Rvalue,
    wanted: Use,
    taken: bool,
    begun: u32,
) -> Result<LaterLaid, AllocError>
    ensures from { IfOk result (λ r. r.from ≡ behind_move taken begun) }
    ensures value { IfOk result (λ r.
        laid_view r.value ≡ laid (names_view names.now) (rvalue_view value.now) wanted (behind_move taken begun)) }
{
    let from = given!(behind_move(taken, begun));
    let value = given!(value_laid(names, value, wanted, from));
    Ok(LaterLaid { from, value })
}

/// An object in memory and the value on the right side, which begins behind the object's old value if that is kept.
pub fn written_laid(
    names: &Names,
    l: &Lvalue,
    value: &Rvalue,
    wanted: Use,
    kept: bool,
    begun: u32,
) -> Result<WrittenLaid, AllocError>
    ensures place { IfOk result (λ w. place_view w.place ≡ place_laid (names_view names.now) (lvalue_view l.now) begun) }
    ensures moved { IfOk result (λ w.
        w.moved ≡ written.is_location_moved (λ y. written.writes (names_view names.now) y (rvalue_view value.now))
        (place_laid (names_view names.now) (lvalue_view l.now) begun).location) }
    ensures from { IfOk result (λ w.
        w.right.from ≡ behind_move w.moved
        (behind_move kept (place_laid (names_view names.now) (lvalue_view l.now) begun).next)) }
    ensures right { IfOk result (λ w.
        laid_view w.right.value ≡ laid (names_view names.now) (rvalue_view value.now) wanted w.right.from) }
{
    let place = given!(place_laid(names, l, begun));
    let moved = is_location_moved(names, place.location, value);
    let behind = given!(behind_move(kept, place.next));
    let right = given!(later_laid(names, value, wanted, moved, behind));
    Ok(WrittenLaid {
        place,
        moved,
        right,
    })
}

/// Where the parts of `?:` begin whose arms write a name, if they have a value.
pub fn arms_laid(
    names: &Names,
    condition: &Rvalue,
    chosen: &Rvalue,
    begun: u32,
) -> Result<ArmsLaid, AllocError>
    ensures void { IfOk result (λ q.
        q.is_void ≡ types.is_void (types.type_of (names_view names.now).results (rvalue_view chosen.now))) }
    ensures at { IfOk result (λ q. q.at ≡ behind_move (not q.is_void) begun) }
    ensures then { IfOk result (λ q.
        q.at_then ≡ named.pick (names_view names.now) q.at
        (laid (names_view names.now) (rvalue_view condition.now) Tested q.at).top) }
    ensures other { IfOk result (λ q.
        q.at_other ≡ named.pick (names_view names.now) q.at
        (laid (names_view names.now) (rvalue_view chosen.now) (arm_use q.is_void begun) q.at_then).top) }
{
    let is_void = is_void(type_of(&names.results, chosen));
    let at = given!(behind_move(!is_void, begun));
    let tested = given!(value_laid(names, condition, Use::Tested, at));
    let at_then = pick(names, at, tested.top);
    let first = given!(value_laid(names, chosen, arm_use(is_void, begun), at_then));
    let at_other = pick(names, at, first.top);
    Ok(ArmsLaid {
        is_void,
        at,
        at_then,
        at_other,
    })
}

/// An argument, moved if a later one writes it.
pub fn argument_laid(
    names: &Names,
    first: &Rvalue,
    rest: &Arguments,
    begun: u32,
) -> Result<ArgumentLaid, AllocError>
    ensures value { IfOk result
        (λ p. laid_view p.value ≡ laid (names_view names.now) (rvalue_view first.now) Anywhere begun) }
    ensures moved { IfOk result (λ p.
        p.moved ≡ written.is_moved (λ y. written.writes_any (names_view names.now) y (arguments_view rest.now))
        (laid (names_view names.now) (rvalue_view first.now) Anywhere begun).value) }
    ensures behind { IfOk result (λ p.
        p.behind ≡ behind_move p.moved (laid (names_view names.now) (rvalue_view first.now) Anywhere begun).next) }
{
    let value = given!(value_laid(names, first, Use::Anywhere, begun));
    let moved = is_moved_before(names, value.value, rest);
    let behind = given!(behind_move(moved, value.next));
    Ok(ArgumentLaid {
        value,
        moved,
        behind,
    })
}
