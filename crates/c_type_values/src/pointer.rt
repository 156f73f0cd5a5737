//! Addresses and what stands at them (6.5.2.1 and 6.5.3.2).

ghost use Rattle.std.specs.Prelude.{◌≡◌, IfOk};
ghost use Rattle.std.specs.Option.{option_map};
ghost use Rattle.c_type_values.specs.Values.{meant_view, value_view};
ghost use Rattle.c_type_values.specs.Pointers.{address, dereferenced, element_address, subscript, named_array};
ghost use Rattle.c_tree.specs.TypedExpressions.{rvalue_view};

use crate::conversion::to_integer;
use crate::given;
use crate::nodes::node;
use crate::value::{Meant, Value};
use c_tree::{Lvalue, Object, ObjectType, Rvalue, ValueType};
use c_type_rules::{Constancy, promoted, scalar_size};
use std::alloc::{AllocError, Global};

/// `&a`; none of what is no object.
pub fn address(alloc: Global, meant: Meant) -> Result<Option<Value>, AllocError>
    ensures { IfOk result (λ v. option_map value_view v ≡ address (meant_view meant)) }
{
    match meant {
        Meant::Value(_) => Ok(None),
        Meant::Object { of, tree, constant } => {
            let tree = given!(node(alloc, Rvalue::AddressOf(tree)));
            Ok(Some(Value {
                of: ValueType::Pointer(of),
                tree,
                constant,
            }))
        }
    }
}

/// `*a`; none of what is no pointer.
pub fn dereferenced(alloc: Global, value: Value) -> Result<Option<Meant>, AllocError>
    ensures { IfOk result (λ m. option_map meant_view m ≡ dereferenced (value_view value)) }
{
    match value.of {
        ValueType::Pointer(of) => {
            let tree = given!(node(
                alloc,
                Lvalue::Target {
                    of,
                    pointer: value.tree,
                }
            ));
            Ok(Some(Meant::Object {
                of,
                tree,
                constant: Constancy::Varies,
            }))
        }
        _ => Ok(None),
    }
}

/// The number of a static array, with its bytes an element and its elements, where a pointer is just its name.
fn named_array(pointer: &Rvalue) -> Option<(u32, u32, u32)>
    ensures { result ≡ named_array (rvalue_view pointer.now) }
{
    match pointer {
        Rvalue::Decay(from) => match &**from {
            Lvalue::Named {
                object: Object::Static(number),
                of: ObjectType::Array { element, count },
            } => Some((*number, scalar_size(*element), *count)),
            _ => None,
        },
        _ => None,
    }
}

/// The address of an element as a constant: the array is named, and the index an integer constant expression from 0 to
/// the number of elements.
fn element_address(pointer: &Rvalue, index: Constancy) -> Constancy
    ensures { result ≡ element_address (named_array (rvalue_view pointer.now)) index }
{
    match (named_array(pointer), index) {
        (Some((number, size, count)), Constancy::Known(at)) => {
            if 0 <= at && at <= i64::from(count) {
                Constancy::Address(Object::Static(number), at as u64 * u64::from(size))
            } else {
                Constancy::Varies
            }
        }
        _ => Constancy::Varies,
    }
}

/// `a[b]`, one of which is a pointer and the other an integer; none where they are not.
pub fn element_of(alloc: Global, left: Value, right: Value) -> Result<Option<Meant>, AllocError>
    ensures { IfOk result (λ m. option_map meant_view m ≡ subscript (value_view left) (value_view right)) }
{
    match (left.of, right.of) {
        (ValueType::Pointer(of), ValueType::Integer(integer_type)) => {
            let index = given!(to_integer(alloc, right, promoted(integer_type)));
            let constant = element_address(&left.tree, index.constant);
            let tree = given!(node(
                alloc,
                Lvalue::Element {
                    of,
                    pointer: left.tree,
                    index: index.tree,
                }
            ));
            Ok(Some(Meant::Object { of, tree, constant }))
        }
        (ValueType::Integer(integer_type), ValueType::Pointer(of)) => {
            let index = given!(to_integer(alloc, left, promoted(integer_type)));
            let tree = given!(node(
                alloc,
                Lvalue::ElementFrom {
                    of,
                    index: index.tree,
                    pointer: right.tree,
                }
            ));
            Ok(Some(Meant::Object {
                of,
                tree,
                constant: Constancy::Varies,
            }))
        }
        _ => Ok(None),
    }
}
