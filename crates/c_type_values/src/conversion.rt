//! Conversions (6.3).

ghost use Rattle.std.specs.Prelude.{◌≡◌, IfOk};
ghost use Rattle.std.specs.Option.{option_map};
ghost use Rattle.c_type_values.specs.Values.{converted_value, is_integer_of, null, to_integer, value_view};

use crate::given;
use crate::nodes::node;
use crate::value::Value;
use c_tree::{IntegerType, Rvalue, ValueType};
use c_type_rules::{Constancy, converted_constant, same_integer, same_value};
use std::alloc::{AllocError, Global};

/// Whether a value's type is an integer type.
fn is_of(of: ValueType, integer_type: IntegerType) -> bool
    ensures { result ≡ is_integer_of of integer_type }
{
    match of {
        ValueType::Integer(own) => same_integer(own, integer_type),
        _ => false,
    }
}

/// An integer as one of a type.
#[tactic(auto, unfolding(crate::specs::Values::to_integer))]
pub fn to_integer(alloc: Global, value: Value, to: IntegerType) -> Result<Value, AllocError>
    ensures { IfOk result (λ v. value_view v ≡ to_integer to (value_view value)) }
{
    if is_of(value.of, to) {
        return Ok(value);
    }
    let tree = given!(node(
        alloc,
        Rvalue::Convert {
            to,
            operand: value.tree,
        }
    ));
    Ok(Value {
        of: ValueType::Integer(to),
        tree,
        constant: converted_constant(to, value.constant),
    })
}

/// The null pointer of a type.
pub fn null(alloc: Global, of: ValueType) -> Result<Value, AllocError>
    ensures { IfOk result (λ v. value_view v ≡ null of) }
{
    let tree = given!(node(alloc, Rvalue::Null));
    Ok(Value {
        of,
        tree,
        constant: Constancy::Known(0),
    })
}

/// A value as if assigned to an object that holds values of a type: an integer is converted to any integer type, a
/// pointer only to its own, and a constant token 0 to the null pointer. None where the language does not allow it
/// (6.5.16.1).
pub fn converted(
    alloc: Global,
    value: Value,
    to: ValueType,
    is_zero: bool,
) -> Result<Option<Value>, AllocError>
    ensures { IfOk result (λ v. option_map value_view v ≡ converted_value (value_view value) to is_zero) }
{
    match (to, value.of) {
        (ValueType::Integer(integer_type), ValueType::Integer(_)) => {
            let made = given!(to_integer(alloc, value, integer_type));
            Ok(Some(made))
        }
        (ValueType::Pointer(_), ValueType::Integer(_)) => {
            if is_zero {
                let nothing = given!(null(alloc, to));
                Ok(Some(nothing))
            } else {
                Ok(None)
            }
        }
        _ => {
            if same_value(value.of, to) {
                Ok(Some(value))
            } else {
                Ok(None)
            }
        }
    }
}
