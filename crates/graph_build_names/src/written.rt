//! Which scalars the code of expressions writes.

ghost use Rattle.std.specs.Prelude.{◌≡◌};
ghost use Rattle.c_tree.specs.TypedExpressions.{arguments_view, lvalue_view, rvalue_view};
ghost use Rattle.graph_core.specs.Graphs.{location_view, operand_view};
ghost use Rattle.graph_build_names.specs.Names.{names_view};
ghost use Rattle.graph_build_names.specs.Writes.{is_location_moved, is_moved, names_it, writes, writes_any, writes_within};

use crate::names::{Names, scalar_named};
use c_tree::{Arguments, Lvalue, Rvalue};
use graph_core::{Location, Operand};

/// Whether an lvalue names the scalar of a name.
fn names_it(names: &Names, y: u32, l: &Lvalue) -> bool
    ensures { result ≡ names_it (names_view names.now) y (lvalue_view l.now) }
{
    match scalar_named(names, l) {
        None => false,
        Some(x) => x == y,
    }
}

/// Whether the code of an expression writes a scalar.
#[cycle(writes)]
pub fn writes(names: &Names, y: u32, e: &Rvalue) -> bool
    ensures { result ≡ writes (names_view names.now) y (rvalue_view e.now) }
{
    match e {
        Rvalue::Constant { .. } | Rvalue::Null => false,
        Rvalue::Load { from, .. } | Rvalue::Decay(from) | Rvalue::AddressOf(from) => {
            writes_within(names, y, from)
        }
        Rvalue::Convert { operand, .. }
        | Rvalue::Discard(operand)
        | Rvalue::Signed { operand, .. }
        | Rvalue::Not(operand) => writes(names, y, operand),
        Rvalue::Arithmetic { left, right, .. }
        | Rvalue::Compare { left, right, .. }
        | Rvalue::ComparePointers { left, right, .. }
        | Rvalue::Move {
            pointer: left,
            by: right,
            ..
        }
        | Rvalue::MoveFrom {
            by: left,
            pointer: right,
            ..
        }
        | Rvalue::Difference { left, right, .. }
        | Rvalue::And(left, right)
        | Rvalue::Or(left, right)
        | Rvalue::Comma(left, right) => writes(names, y, left) || writes(names, y, right),
        Rvalue::Conditional {
            condition,
            then,
            otherwise,
        } => writes(names, y, condition) || writes(names, y, then) || writes(names, y, otherwise),
        Rvalue::Assign { target, value, .. }
        | Rvalue::Update { target, value, .. }
        | Rvalue::UpdatePointer {
            target,
            by: value,
            ..
        } => {
            names_it(names, y, target) || writes_within(names, y, target) || writes(names, y, value)
        }
        Rvalue::Step { target, .. } | Rvalue::StepPointer { target, .. } => {
            names_it(names, y, target) || writes_within(names, y, target)
        }
        Rvalue::Call { arguments, .. } => writes_any(names, y, arguments),
    }
}

/// Whether what comes before the place of an lvalue writes it.
#[cycle(writes)]
fn writes_within(names: &Names, y: u32, l: &Lvalue) -> bool
    ensures { result ≡ writes_within (names_view names.now) y (lvalue_view l.now) }
{
    match l {
        Lvalue::Named { .. } => false,
        Lvalue::Target { pointer, .. } => writes(names, y, pointer),
        Lvalue::Element {
            pointer: left,
            index: right,
            ..
        }
        | Lvalue::ElementFrom {
            index: left,
            pointer: right,
            ..
        } => writes(names, y, left) || writes(names, y, right),
    }
}

/// Whether arguments write it.
#[cycle(writes)]
pub fn writes_any(names: &Names, y: u32, all: &Arguments) -> bool
    ensures { result ≡ writes_any (names_view names.now) y (arguments_view all.now) }
{
    match all {
        Arguments::End => false,
        Arguments::More(first, rest) => writes(names, y, first) || writes_any(names, y, rest),
    }
}

/// Whether an operand is moved to a name of its own before an expression: it stands in a name that this one's code
/// writes.
pub fn is_moved(names: &Names, operand: Operand, later: &Rvalue) -> bool
    ensures { result ≡ is_moved (λ y. writes (names_view names.now) y (rvalue_view later.now)) (operand_view operand) }
{
    match operand {
        Operand::Name(name) => writes(names, name.0, later),
        _ => false,
    }
}

/// Whether an operand is moved to a name of its own before arguments.
pub fn is_moved_before(names: &Names, operand: Operand, later: &Arguments) -> bool
    ensures { result
        ≡ is_moved (λ y. writes_any (names_view names.now) y (arguments_view later.now)) (operand_view operand) }
{
    match operand {
        Operand::Name(name) => writes_any(names, name.0, later),
        _ => false,
    }
}

/// Whether the address of a location is moved to a name of its own before an expression.
pub fn is_location_moved(names: &Names, location: Location, later: &Rvalue) -> bool
    ensures { result ≡ is_location_moved (λ y.
        writes (names_view names.now) y (rvalue_view later.now)) (location_view location) }
{
    match location {
        Location::At(operand) => is_moved(names, operand, later),
        _ => false,
    }
}
