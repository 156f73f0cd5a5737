//! What objects take in memory.

ghost use Rattle.std.specs.Prelude.{◌≡◌, map};
ghost use Rattle.c_type_rules.specs.Integers.{object_size, room};
ghost use Rattle.c_tree.specs.Programs.{automatic_view, literal_view, static_view};
ghost use Rattle.c_type_bounds.specs.Bounds.{kept_room, literal_room, memory_room, static_room};
ghost use Rattle.c_type_bounds.specs.Counts.{capped};

use crate::count::plus;
use c_tree::{AutomaticVariable, ObjectType, StaticVariable, StringLiteral};
use c_type_rules::{object_size, room};

/// So many bytes are rounded up without passing the greatest number.
const PART: u64 = 4611686018427387904;

/// What an object of a type takes.
fn object_room(of: ObjectType) -> u64
    ensures { result ≡ capped (room (object_size of)) }
{
    room(object_size(of))
}

/// What an object takes where it is kept in memory.
fn kept_room(variable: &AutomaticVariable) -> u64
    ensures { result ≡ capped (kept_room (automatic_view variable.now)) }
{
    if variable.in_memory {
        object_room(variable.of)
    } else {
        0
    }
}

/// What the memory objects among variables take.
pub fn memory_room(variables: &[AutomaticVariable]) -> u64
    ensures { result ≡ capped (memory_room (map automatic_view variables.now)) }
{
    let mut total = 0;
    for one in variables {
        total = plus(total, kept_room(one));
    }
    total
}

/// What static objects take.
pub fn static_room(variables: &[StaticVariable]) -> u64
    ensures { result ≡ capped (static_room (map static_view variables.now)) }
{
    let mut total = 0;
    for one in variables {
        total = plus(total, object_room(one.of));
    }
    total
}

/// What literals take.
pub fn literal_room(literals: &[StringLiteral]) -> u64
    ensures { result ≡ capped (literal_room (map literal_view literals.now)) }
{
    let mut total = 0;
    for one in literals {
        total = plus(total, bytes_room(one.bytes.len()));
    }
    total
}

/// What so many bytes take.
fn bytes_room(count: usize) -> u64
    ensures { result ≡ capped (room count) }
{
    let rest = count as u64 % PART;
    plus(count as u64 - rest, room(rest))
}
