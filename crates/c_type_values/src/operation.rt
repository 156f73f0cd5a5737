//! Operators on values (6.5).

ghost use Rattle.std.specs.Prelude.{◌≡◌, IfOk};
ghost use Rattle.std.specs.Option.{option_map};
ghost use Rattle.c_type_values.specs.Values.{value_view};
ghost use Rattle.c_type_values.specs.Operations.{arithmetic_value, logical_and, calculated_value, conditional_value, chosen_as, chosen_integer, combined, compared_value, conditional_meaning, element_difference, discarded, logical_or, integers_compared, is_equality, is_scalar, is_shift, moved_pointer, moved_from, negated, binary_operation, comparison_of_pointers, sequenced, signed_value};

use crate::conversion::{null, to_integer};
use crate::given;
use crate::nodes::node;
use crate::value::Value;
use c_tree::{
    Arithmetic, BinaryOperator, Comparison, Direction, IntegerType, ObjectType, Rvalue, Sign,
    ValueType,
};
use c_type_rules::{
    Constancy, and_constant, arithmetic_constant, common, comparison_constant,
    conditional_constant, not_constant, or_constant, promoted, same_object, same_value,
    sign_constant,
};
use std::alloc::{AllocError, Global};

/// What an operator between two operands does.
#[derive(Clone, Copy)]
pub enum Operation {
    Calculates(Arithmetic),
    Compares(Comparison),
    /// `&&`
    Both,
    /// `||`
    Either,
}

fn operation_of(operator: BinaryOperator) -> Operation
    ensures { result ≡ binary_operation operator }
{
    match operator {
        BinaryOperator::Multiply => Operation::Calculates(Arithmetic::Multiply),
        BinaryOperator::Divide => Operation::Calculates(Arithmetic::Divide),
        BinaryOperator::Remainder => Operation::Calculates(Arithmetic::Remainder),
        BinaryOperator::Add => Operation::Calculates(Arithmetic::Add),
        BinaryOperator::Subtract => Operation::Calculates(Arithmetic::Subtract),
        BinaryOperator::ShiftLeft => Operation::Calculates(Arithmetic::ShiftLeft),
        BinaryOperator::ShiftRight => Operation::Calculates(Arithmetic::ShiftRight),
        BinaryOperator::Less => Operation::Compares(Comparison::Less),
        BinaryOperator::Greater => Operation::Compares(Comparison::Greater),
        BinaryOperator::LessEqual => Operation::Compares(Comparison::LessEqual),
        BinaryOperator::GreaterEqual => Operation::Compares(Comparison::GreaterEqual),
        BinaryOperator::Equal => Operation::Compares(Comparison::Equal),
        BinaryOperator::NotEqual => Operation::Compares(Comparison::NotEqual),
        BinaryOperator::BitAnd => Operation::Calculates(Arithmetic::BitAnd),
        BinaryOperator::BitXor => Operation::Calculates(Arithmetic::BitXor),
        BinaryOperator::BitOr => Operation::Calculates(Arithmetic::BitOr),
        BinaryOperator::LogicalAnd => Operation::Both,
        BinaryOperator::LogicalOr => Operation::Either,
    }
}

/// Whether each operand keeps a type of its own.
pub fn is_shift(operator: Arithmetic) -> bool
    ensures { result ≡ is_shift operator }
{
    matches!(operator, Arithmetic::ShiftLeft | Arithmetic::ShiftRight)
}

fn is_equality(operator: Comparison) -> bool
    ensures { result ≡ is_equality operator }
{
    matches!(operator, Comparison::Equal | Comparison::NotEqual)
}

/// Whether a value is an integer or a pointer.
pub fn is_scalar(of: ValueType) -> bool
    ensures { result ≡ is_scalar of }
{
    !matches!(of, ValueType::Void)
}

/// `+a`, `-a`, `~a`, in the promoted type; none of what is no integer.
pub fn signed_value(alloc: Global, sign: Sign, value: Value) -> Result<Option<Value>, AllocError>
    ensures { IfOk result (λ v. option_map value_view v ≡ signed_value sign (value_view value)) }
{
    match value.of {
        ValueType::Integer(own) => {
            let integer_type = promoted(own);
            let operand = given!(to_integer(alloc, value, integer_type));
            let tree = given!(node(
                alloc,
                Rvalue::Signed {
                    sign,
                    integer_type,
                    operand: operand.tree,
                }
            ));
            Ok(Some(Value {
                of: ValueType::Integer(integer_type),
                tree,
                constant: sign_constant(sign, integer_type, operand.constant),
            }))
        }
        _ => Ok(None),
    }
}

/// `!a`; none of what is no scalar.
pub fn negated(alloc: Global, value: Value) -> Result<Option<Value>, AllocError>
    ensures { IfOk result (λ v. option_map value_view v ≡ negated (value_view value)) }
{
    if !is_scalar(value.of) {
        return Ok(None);
    }
    let tree = given!(node(alloc, Rvalue::Not(value.tree)));
    Ok(Some(Value {
        of: ValueType::Integer(IntegerType::Int),
        tree,
        constant: not_constant(value.constant),
    }))
}

/// `(void)a`
pub fn discarded(alloc: Global, value: Value) -> Result<Value, AllocError>
    ensures { IfOk result (λ v. value_view v ≡ discarded (value_view value)) }
{
    let tree = given!(node(alloc, Rvalue::Discard(value.tree)));
    Ok(Value {
        of: ValueType::Void,
        tree,
        constant: Constancy::Varies,
    })
}

/// Arithmetic on two integers: of a shift each operand is promoted, of the others both are of the common type.
#[tactic(auto, unfolding(crate::specs::Operations::arithmetic_value))]
fn arithmetic_value(
    alloc: Global,
    operator: Arithmetic,
    left: Value,
    right: Value,
    left_type: IntegerType,
    right_type: IntegerType,
) -> Result<Value, AllocError>
    ensures { IfOk result (λ v.
        value_view v ≡ arithmetic_value operator left_type right_type (value_view left) (value_view right)) }
{
    let integer_type = if is_shift(operator) {
        promoted(left_type)
    } else {
        common(left_type, right_type)
    };
    let other_type = if is_shift(operator) {
        promoted(right_type)
    } else {
        integer_type
    };
    let left = given!(to_integer(alloc, left, integer_type));
    let right = given!(to_integer(alloc, right, other_type));
    let tree = given!(node(
        alloc,
        Rvalue::Arithmetic {
            operator,
            integer_type,
            left: left.tree,
            right: right.tree,
        }
    ));
    Ok(Value {
        of: ValueType::Integer(integer_type),
        tree,
        constant: arithmetic_constant(operator, integer_type, left.constant, right.constant),
    })
}

/// A pointer moved by an integer in its promoted type.
fn moved(
    alloc: Global,
    direction: Direction,
    element: ObjectType,
    pointer: Value,
    by: Value,
    by_type: IntegerType,
) -> Result<Value, AllocError>
    ensures { IfOk result (λ v. value_view v ≡ moved_pointer direction element by_type (value_view pointer) (value_view by)) }
{
    let by = given!(to_integer(alloc, by, promoted(by_type)));
    let tree = given!(node(
        alloc,
        Rvalue::Move {
            direction,
            element,
            pointer: pointer.tree,
            by: by.tree,
        }
    ));
    Ok(Value {
        of: ValueType::Pointer(element),
        tree,
        constant: Constancy::Varies,
    })
}

/// A pointer moved by an integer that stands before it.
fn moved_from(
    alloc: Global,
    element: ObjectType,
    by: Value,
    by_type: IntegerType,
    pointer: Value,
) -> Result<Value, AllocError>
    ensures { IfOk result (λ v. value_view v ≡ moved_from element by_type (value_view by) (value_view pointer)) }
{
    let by = given!(to_integer(alloc, by, promoted(by_type)));
    let tree = given!(node(
        alloc,
        Rvalue::MoveFrom {
            by: by.tree,
            element,
            pointer: pointer.tree,
        }
    ));
    Ok(Value {
        of: ValueType::Pointer(element),
        tree,
        constant: Constancy::Varies,
    })
}

/// How many elements lie between two pointers of one type.
fn difference(
    alloc: Global,
    element: ObjectType,
    left: Value,
    right: Value,
) -> Result<Value, AllocError>
    ensures { IfOk result (λ v. value_view v ≡ element_difference element (value_view left) (value_view right)) }
{
    let tree = given!(node(
        alloc,
        Rvalue::Difference {
            element,
            left: left.tree,
            right: right.tree,
        }
    ));
    Ok(Value {
        of: ValueType::Integer(IntegerType::Int),
        tree,
        constant: Constancy::Varies,
    })
}

/// Arithmetic: on two integers, a pointer plus or minus an integer, an integer plus a pointer, or the difference of two
/// pointers of one type; none of others.
fn calculated_value(
    alloc: Global,
    operator: Arithmetic,
    left: Value,
    right: Value,
) -> Result<Option<Value>, AllocError>
    ensures { IfOk result
        (λ v. option_map value_view v ≡ calculated_value operator (value_view left) (value_view right)) }
{
    match (left.of, right.of) {
        (ValueType::Integer(left_type), ValueType::Integer(right_type)) => {
            let made = given!(arithmetic_value(
                alloc, operator, left, right, left_type, right_type
            ));
            Ok(Some(made))
        }
        (ValueType::Pointer(element), ValueType::Integer(by_type)) => match operator {
            Arithmetic::Add => {
                let made = given!(moved(alloc, Direction::Up, element, left, right, by_type));
                Ok(Some(made))
            }
            Arithmetic::Subtract => {
                let made = given!(moved(alloc, Direction::Down, element, left, right, by_type));
                Ok(Some(made))
            }
            _ => Ok(None),
        },
        (ValueType::Integer(by_type), ValueType::Pointer(element)) => match operator {
            Arithmetic::Add => {
                let made = given!(moved_from(alloc, element, left, by_type, right));
                Ok(Some(made))
            }
            _ => Ok(None),
        },
        (ValueType::Pointer(element), ValueType::Pointer(other)) => match operator {
            Arithmetic::Subtract => {
                if same_object(element, other) {
                    let made = given!(difference(alloc, element, left, right));
                    Ok(Some(made))
                } else {
                    Ok(None)
                }
            }
            _ => Ok(None),
        },
        _ => Ok(None),
    }
}

/// A comparison of two pointers.
fn pointers_compared(
    alloc: Global,
    operator: Comparison,
    left: Value,
    right: Value,
) -> Result<Value, AllocError>
    ensures { IfOk result (λ v. value_view v ≡ comparison_of_pointers operator (value_view left) (value_view right)) }
{
    let tree = given!(node(
        alloc,
        Rvalue::ComparePointers {
            operator,
            left: left.tree,
            right: right.tree,
        }
    ));
    Ok(Value {
        of: ValueType::Integer(IntegerType::Int),
        tree,
        constant: Constancy::Varies,
    })
}

/// A comparison of two integers in their common type.
fn integers_compared(
    alloc: Global,
    operator: Comparison,
    left: Value,
    right: Value,
    integer_type: IntegerType,
) -> Result<Value, AllocError>
    ensures { IfOk result
        (λ v. value_view v ≡ integers_compared operator integer_type (value_view left) (value_view right)) }
{
    let left = given!(to_integer(alloc, left, integer_type));
    let right = given!(to_integer(alloc, right, integer_type));
    let tree = given!(node(
        alloc,
        Rvalue::Compare {
            operator,
            integer_type,
            left: left.tree,
            right: right.tree,
        }
    ));
    Ok(Value {
        of: ValueType::Integer(IntegerType::Int),
        tree,
        constant: comparison_constant(operator, left.constant, right.constant),
    })
}

/// A comparison: of two integers, of two pointers of one type, or for equality of a pointer and a constant token 0;
/// none of others.
fn compared_value(
    alloc: Global,
    operator: Comparison,
    left: Value,
    right: Value,
    left_zero: bool,
    right_zero: bool,
) -> Result<Option<Value>, AllocError>
    ensures { IfOk result (λ v.
        option_map value_view v ≡ compared_value operator (value_view left) (value_view right) left_zero right_zero) }
{
    match (left.of, right.of) {
        (ValueType::Integer(left_type), ValueType::Integer(right_type)) => {
            let made = given!(integers_compared(
                alloc,
                operator,
                left,
                right,
                common(left_type, right_type),
            ));
            Ok(Some(made))
        }
        (ValueType::Pointer(element), ValueType::Pointer(other)) => {
            if same_object(element, other) {
                let made = given!(pointers_compared(alloc, operator, left, right));
                Ok(Some(made))
            } else {
                Ok(None)
            }
        }
        (ValueType::Pointer(_), ValueType::Integer(_)) => {
            if is_equality(operator) && right_zero {
                let nothing = given!(null(alloc, left.of));
                let made = given!(pointers_compared(alloc, operator, left, nothing));
                Ok(Some(made))
            } else {
                Ok(None)
            }
        }
        (ValueType::Integer(_), ValueType::Pointer(_)) => {
            if is_equality(operator) && left_zero {
                let nothing = given!(null(alloc, right.of));
                let made = given!(pointers_compared(alloc, operator, nothing, right));
                Ok(Some(made))
            } else {
                Ok(None)
            }
        }
        _ => Ok(None),
    }
}

/// `a&&b`, of two scalars.
fn both(alloc: Global, left: Value, right: Value) -> Result<Option<Value>, AllocError>
    ensures { IfOk result (λ v. option_map value_view v ≡ logical_and (value_view left) (value_view right)) }
{
    if !is_scalar(left.of) || !is_scalar(right.of) {
        return Ok(None);
    }
    let tree = given!(node(alloc, Rvalue::And(left.tree, right.tree)));
    Ok(Some(Value {
        of: ValueType::Integer(IntegerType::Int),
        tree,
        constant: and_constant(left.constant, right.constant),
    }))
}

/// `a||b`, of two scalars.
fn either(alloc: Global, left: Value, right: Value) -> Result<Option<Value>, AllocError>
    ensures { IfOk result (λ v. option_map value_view v ≡ logical_or (value_view left) (value_view right)) }
{
    if !is_scalar(left.of) || !is_scalar(right.of) {
        return Ok(None);
    }
    let tree = given!(node(alloc, Rvalue::Or(left.tree, right.tree)));
    Ok(Some(Value {
        of: ValueType::Integer(IntegerType::Int),
        tree,
        constant: or_constant(left.constant, right.constant),
    }))
}

/// An operator between two values, of which may be told that they are constant tokens 0; none where it does not take
/// their types.
pub fn combined(
    alloc: Global,
    operator: BinaryOperator,
    left: Value,
    right: Value,
    left_zero: bool,
    right_zero: bool,
) -> Result<Option<Value>, AllocError>
    ensures { IfOk result (λ v.
        option_map value_view v ≡ combined (binary_operation operator) (value_view left) (value_view right) left_zero
        right_zero) }
{
    match operation_of(operator) {
        Operation::Calculates(arithmetic) => calculated_value(alloc, arithmetic, left, right),
        Operation::Compares(comparison) => compared_value(
            alloc, comparison, left, right, left_zero, right_zero,
        ),
        Operation::Both => both(alloc, left, right),
        Operation::Either => either(alloc, left, right),
    }
}

/// `a,b`
pub fn sequenced(alloc: Global, left: Value, right: Value) -> Result<Value, AllocError>
    ensures { IfOk result (λ v. value_view v ≡ sequenced (value_view left) (value_view right)) }
{
    let tree = given!(node(alloc, Rvalue::Comma(left.tree, right.tree)));
    Ok(Value {
        of: right.of,
        tree,
        constant: Constancy::Varies,
    })
}

/// `a?b:c` with both arms of one type.
fn chosen(
    alloc: Global,
    of: ValueType,
    condition: Value,
    then: Value,
    otherwise: Value,
    constant: Constancy,
) -> Result<Value, AllocError>
    ensures { IfOk result (λ v.
        value_view v ≡ conditional_value of (value_view condition) (value_view then) (value_view otherwise) constant) }
{
    let tree = given!(node(
        alloc,
        Rvalue::Conditional {
            condition: condition.tree,
            then: then.tree,
            otherwise: otherwise.tree,
        }
    ));
    Ok(Value { of, tree, constant })
}

/// `a?b:c` on two integers, in their common type.
fn chosen_integer(
    alloc: Global,
    integer_type: IntegerType,
    condition: Value,
    then: Value,
    otherwise: Value,
) -> Result<Value, AllocError>
    ensures { IfOk result (λ v.
        value_view v ≡ chosen_integer integer_type (value_view condition) (value_view then) (value_view otherwise)) }
{
    let then = given!(to_integer(alloc, then, integer_type));
    let otherwise = given!(to_integer(alloc, otherwise, integer_type));
    let constant = conditional_constant(condition.constant, then.constant, otherwise.constant);
    chosen(
        alloc,
        ValueType::Integer(integer_type),
        condition,
        then,
        otherwise,
        constant,
    )
}

/// `a?b:c` by its arms: two integers, of one type, or a pointer and a constant token 0; none of others.
fn chosen_as(
    alloc: Global,
    condition: Value,
    then: Value,
    otherwise: Value,
    then_zero: bool,
    other_zero: bool,
) -> Result<Option<Value>, AllocError>
    ensures { IfOk result (λ v.
        option_map value_view v ≡ chosen_as then.of otherwise.of (value_view condition) (value_view then)
        (value_view otherwise) then_zero other_zero) }
{
    let varies = Constancy::Varies;
    match (then.of, otherwise.of) {
        (ValueType::Integer(left), ValueType::Integer(right)) => {
            let of = common(left, right);
            let made = given!(chosen_integer(alloc, of, condition, then, otherwise));
            Ok(Some(made))
        }
        (ValueType::Pointer(_), ValueType::Integer(_)) => {
            if !other_zero {
                return Ok(None);
            }
            let of = then.of;
            let nothing = given!(null(alloc, of));
            let made = given!(chosen(alloc, of, condition, then, nothing, varies));
            Ok(Some(made))
        }
        (ValueType::Integer(_), ValueType::Pointer(_)) => {
            if !then_zero {
                return Ok(None);
            }
            let of = otherwise.of;
            let nothing = given!(null(alloc, of));
            let made = given!(chosen(alloc, of, condition, nothing, otherwise, varies));
            Ok(Some(made))
        }
        (of, other) => {
            if !same_value(of, other) {
                return Ok(None);
            }
            let made = given!(chosen(alloc, of, condition, then, otherwise, varies));
            Ok(Some(made))
        }
    }
}

/// `a?b:c`: the condition is a scalar, and the arms are two integers, of one type, or a pointer and a constant token 0;
/// none of others.
pub fn conditional(
    alloc: Global,
    condition: Value,
    then: Value,
    otherwise: Value,
    then_zero: bool,
    other_zero: bool,
) -> Result<Option<Value>, AllocError>
    ensures { IfOk result (λ v.
        option_map value_view v ≡ conditional_meaning (value_view condition) (value_view then) (value_view otherwise)
        then_zero other_zero) }
{
    if !is_scalar(condition.of) {
        return Ok(None);
    }
    chosen_as(alloc, condition, then, otherwise, then_zero, other_zero)
}
