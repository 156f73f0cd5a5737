//! What expressions mean.

ghost use Rattle.std.specs.Prelude.{◌≡◌, IfOk};
ghost use Rattle.c_type_values.specs.Values.{as_value, meant_type, meant_view, value_view};

use crate::given;
use crate::nodes::node;
use c_tree::{Lvalue, ObjectType, Rvalue, ValueType};
use c_type_rules::{Constancy, loaded};
use std::alloc::{AllocError, Global};

/// A value with its type.
#[derive(Drop)]
pub struct Value {
    pub of: ValueType,
    pub tree: Box<Rvalue>,
    /// Whether it is a constant expression.
    pub constant: Constancy,
}

/// What an expression means.
#[derive(Drop)]
pub enum Meant {
    /// An object of a type. The address of one of static storage is a constant.
    Object {
        of: ObjectType,
        tree: Box<Lvalue>,
        constant: Constancy,
    },
    Value(Value),
}

/// The value of an expression: what an object of a scalar type holds, and a pointer to the first element of an array
/// (6.3.2.1).
pub fn as_value(alloc: Global, meant: Meant) -> Result<Value, AllocError>
    ensures { IfOk result (λ v. value_view v ≡ as_value (meant_view meant)) }
{
    match meant {
        Meant::Value(value) => Ok(value),
        Meant::Object { of, tree, constant } => match of {
            ObjectType::Scalar(scalar) => {
                let tree = given!(node(
                    alloc,
                    Rvalue::Load {
                        scalar,
                        from: tree,
                    }
                ));
                Ok(Value {
                    of: loaded(scalar),
                    tree,
                    constant: Constancy::Varies,
                })
            }
            ObjectType::Array { element, .. } => {
                let tree = given!(node(alloc, Rvalue::Decay(tree)));
                Ok(Value {
                    of: ValueType::Pointer(ObjectType::Scalar(element)),
                    tree,
                    constant,
                })
            }
        },
    }
}

/// The type of the value of an expression.
pub fn meant_type(meant: &Meant) -> ValueType
    ensures { result ≡ meant_type (meant_view meant.now) }
{
    match meant {
        Meant::Value(value) => value.of,
        Meant::Object { of, .. } => match of {
            ObjectType::Scalar(scalar) => loaded(*scalar),
            ObjectType::Array { element, .. } => ValueType::Pointer(ObjectType::Scalar(*element)),
        },
    }
}
