//! What is moved to a name of its own, and how many instructions comparisons take.

ghost use Rattle.std.specs.Prelude.{◌≡◌};
ghost use Rattle.graph_core.specs.Graphs.{location_view, operand_view};
ghost use Rattle.graph_build_names.specs.Operands.{held, is_two, is_two_pointers, located_at, operand_at};

use c_tree::Comparison;
use graph_core::{Location, Name, Operand};

/// An operand, or the name that it is moved to.
pub fn held(moved: bool, operand: Operand, name: u32) -> Operand
    ensures { operand_view result ≡ held moved (operand_view operand) name }
{
    if moved {
        Operand::Name(Name(name))
    } else {
        operand
    }
}

/// The operand of a location that is where a value points; 0 for another one.
pub fn operand_at(location: Location) -> Operand
    ensures { operand_view result ≡ operand_at (location_view location) }
{
    match location {
        Location::At(operand) => operand,
        _ => Operand::Constant(0),
    }
}

/// A location with another operand, if it is where a value points.
pub fn located(location: Location, operand: Operand) -> Location
    ensures { location_view result ≡ located_at (location_view location) (operand_view operand) }
{
    match location {
        Location::At(_) => Location::At(operand),
        _ => location,
    }
}

/// Whether the value of a comparison of numbers takes two instructions.
pub fn is_two(operator: Comparison) -> bool
    ensures { result ≡ is_two operator }
{
    !matches!(operator, Comparison::Less | Comparison::Greater)
}

/// Whether the value of a comparison of pointers takes two instructions.
pub fn is_two_pointers(operator: Comparison) -> bool
    ensures { result ≡ is_two_pointers operator }
{
    !matches!(
        operator,
        Comparison::Equal | Comparison::Less | Comparison::Greater
    )
}
