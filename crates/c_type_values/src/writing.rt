//! Assignments, `++` and `--` (6.5.2.4, 6.5.3.1 and 6.5.16).

ghost use Rattle.std.specs.Prelude.{◌≡◌, IfOk};
ghost use Rattle.std.specs.Option.{option_map};
ghost use Rattle.c_type_values.specs.Values.{meant_view, node_view, value_view};
ghost use Rattle.c_type_values.specs.Writing.{simple_assignment, direction_of, integer_updated, is_modifiable, is_updatable, pointer_updated, settled, step_tree, stepped, update_tree, update_type, compound_assignment};
ghost use Rattle.c_tree.specs.TypedExpressions.{lvalue_view};

use crate::conversion::to_integer;
use crate::given;
use crate::nodes::node;
use crate::operation::is_shift;
use crate::value::{Meant, Value, as_value};
use c_tree::{
    Arithmetic, Direction, Given, IntegerType, Lvalue, ObjectType, Rvalue, Scalar, ValueType,
};
use c_type_rules::{Constancy, common, loaded, pointed_to, promoted};
use std::alloc::{AllocError, Global};

/// Whether an expression can be written: it is an object of a scalar type.
pub fn is_modifiable(meant: &Meant) -> bool
    ensures { result ≡ is_modifiable (meant_view meant.now) }
{
    match meant {
        Meant::Value(_) => false,
        Meant::Object { of, .. } => matches!(of, ObjectType::Scalar(_)),
    }
}

/// A value that is no constant.
fn settled(value: Value) -> Value
    ensures { value_view result ≡ settled (value_view value) }
{
    Value {
        of: value.of,
        tree: value.tree,
        constant: Constancy::Varies,
    }
}

/// What `++` or `--` does to an object of a scalar type.
fn step_tree(
    alloc: Global,
    direction: Direction,
    given: Given,
    scalar: Scalar,
    target: Box<Lvalue>,
) -> Result<Box<Rvalue>, AllocError>
    ensures { IfOk result (λ r. node_view r ≡ step_tree direction given scalar (lvalue_view target.value)) }
{
    if scalar.stars == 0 {
        let tree = given!(node(
            alloc,
            Rvalue::Step {
                direction,
                given,
                target_type: scalar.base,
                integer_type: promoted(scalar.base),
                target,
            }
        ));
        Ok(tree)
    } else {
        let tree = given!(node(
            alloc,
            Rvalue::StepPointer {
                direction,
                given,
                element: ObjectType::Scalar(pointed_to(scalar)),
                target,
            }
        ));
        Ok(tree)
    }
}

/// `++` or `--` of an object of a scalar type. Of others, which is a fault, the operand's own value stands for it.
pub fn stepped(
    alloc: Global,
    direction: Direction,
    given: Given,
    meant: Meant,
) -> Result<Value, AllocError>
    ensures { IfOk result (λ v. value_view v ≡ stepped direction given (meant_view meant)) }
{
    match meant {
        Meant::Object {
            of: ObjectType::Scalar(scalar),
            tree,
            ..
        } => {
            let tree = given!(step_tree(alloc, direction, given, scalar, tree));
            Ok(Value {
                of: loaded(scalar),
                tree,
                constant: Constancy::Varies,
            })
        }
        other => {
            let value = given!(as_value(alloc, other));
            Ok(settled(value))
        }
    }
}

/// `a=b` with an object of a scalar type and a value of its type. Of others, which is a fault, the left side's own
/// value stands for it.
pub fn assigned(alloc: Global, meant: Meant, value: Option<Value>) -> Result<Value, AllocError>
    ensures { IfOk result (λ v. value_view v ≡ simple_assignment (meant_view meant) (option_map value_view value)) }
{
    match (meant, value) {
        (
            Meant::Object {
                of: ObjectType::Scalar(scalar),
                tree,
                ..
            },
            Some(value),
        ) => {
            let tree = given!(node(
                alloc,
                Rvalue::Assign {
                    scalar,
                    target: tree,
                    value: value.tree,
                }
            ));
            Ok(Value {
                of: loaded(scalar),
                tree,
                constant: Constancy::Varies,
            })
        }
        (other, _) => {
            let value = given!(as_value(alloc, other));
            Ok(settled(value))
        }
    }
}

/// Whether an operator that assigns takes these types: integers, or for `+=` and `-=` a pointer and an integer.
pub fn is_updatable(operator: Arithmetic, target: ValueType, value: ValueType) -> bool
    ensures { result ≡ is_updatable operator target value }
{
    match (target, value) {
        (ValueType::Integer(_), ValueType::Integer(_)) => true,
        (ValueType::Pointer(_), ValueType::Integer(_)) => {
            matches!(operator, Arithmetic::Add | Arithmetic::Subtract)
        }
        _ => false,
    }
}

/// The type that an operator that assigns calculates in.
fn update_type(operator: Arithmetic, target: IntegerType, value: IntegerType) -> IntegerType
    ensures { result ≡ update_type operator target value }
{
    if is_shift(operator) {
        promoted(target)
    } else {
        common(target, value)
    }
}

/// `a+=b` on integers.
#[tactic(auto, unfolding(crate::specs::Writing::integer_updated))]
fn integer_updated(
    alloc: Global,
    operator: Arithmetic,
    target_type: IntegerType,
    target: Box<Lvalue>,
    value: Value,
    value_type: IntegerType,
) -> Result<Box<Rvalue>, AllocError>
    ensures { IfOk result (λ r.
        node_view r ≡ integer_updated operator target_type value_type (lvalue_view target.value) (value_view value)) }
{
    let integer_type = update_type(operator, target_type, value_type);
    let right_type = if is_shift(operator) {
        promoted(value_type)
    } else {
        integer_type
    };
    let right = given!(to_integer(alloc, value, right_type));
    let tree = given!(node(
        alloc,
        Rvalue::Update {
            operator,
            target_type,
            integer_type,
            target,
            value: right.tree,
        }
    ));
    Ok(tree)
}

/// Which way a pointer goes: down for `-=`.
fn direction_of(operator: Arithmetic) -> Direction
    ensures { result ≡ direction_of operator }
{
    match operator {
        Arithmetic::Subtract => Direction::Down,
        _ => Direction::Up,
    }
}

/// `p+=b` on a pointer.
fn pointer_updated(
    alloc: Global,
    operator: Arithmetic,
    element: Scalar,
    target: Box<Lvalue>,
    value: Value,
    value_type: IntegerType,
) -> Result<Box<Rvalue>, AllocError>
    ensures { IfOk result (λ r.
        node_view r ≡ pointer_updated operator element value_type (lvalue_view target.value) (value_view value)) }
{
    let by = given!(to_integer(alloc, value, promoted(value_type)));
    let tree = given!(node(
        alloc,
        Rvalue::UpdatePointer {
            direction: direction_of(operator),
            element: ObjectType::Scalar(element),
            target,
            by: by.tree,
        }
    ));
    Ok(tree)
}

/// What an operator that assigns does to an object of a scalar type.
fn update_tree(
    alloc: Global,
    operator: Arithmetic,
    scalar: Scalar,
    target: Box<Lvalue>,
    value: Value,
    value_type: IntegerType,
) -> Result<Box<Rvalue>, AllocError>
    ensures { IfOk result (λ r.
        node_view r ≡ update_tree operator scalar value_type (lvalue_view target.value) (value_view value)) }
{
    if scalar.stars == 0 {
        integer_updated(alloc, operator, scalar.base, target, value, value_type)
    } else {
        pointer_updated(
            alloc,
            operator,
            pointed_to(scalar),
            target,
            value,
            value_type,
        )
    }
}

/// `a+=b` with an object of a scalar type and an integer. Of others, which is a fault, the left side's own value stands
/// for it.
pub fn updated(
    alloc: Global,
    operator: Arithmetic,
    meant: Meant,
    value: Value,
) -> Result<Value, AllocError>
    ensures { IfOk result (λ v. value_view v ≡ compound_assignment operator (meant_view meant) (value_view value)) }
{
    match (meant, value.of) {
        (
            Meant::Object {
                of: ObjectType::Scalar(scalar),
                tree,
                ..
            },
            ValueType::Integer(value_type),
        ) => {
            let tree = given!(update_tree(alloc, operator, scalar, tree, value, value_type));
            Ok(Value {
                of: loaded(scalar),
                tree,
                constant: Constancy::Varies,
            })
        }
        (other, _) => {
            let value = given!(as_value(alloc, other));
            Ok(settled(value))
        }
    }
}
