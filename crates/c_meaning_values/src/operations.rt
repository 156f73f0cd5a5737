//! What the operators give on values, or none where C leaves it undefined (ISO/IEC 9899:2011, 6.5).

ghost use Rattle.std.specs.Prelude.{◌≡◌, ◌*ℤ◌, map, pos, option_map};
ghost use Rattle.c_meaning_values.specs.Types.{size};
ghost use Rattle.c_meaning_values.specs.declared.value.Value.TheVariants.{Number};
ghost use Rattle.c_meaning_values.specs.Views.{object_view};
ghost use Rattle.c_meaning_values.specs.Operations.{arithmetic, comparison_value, comparison, convert, bytes_moved, stride, elements_from, elements_between, if_usable, is_same_pointer, is_true, moved_by_elements, order_of, pointer_comparison, pointer_difference, pointers_compared, value_with_sign};

use crate::memory::{Object, is_usable, moved};
use crate::types::size;
use crate::value::Value;
use c_tree::{Arithmetic, Comparison, Direction, IntegerType, ObjectType, Sign};
use c_type_rules::{calculated, compared, truth, wrapped};

/// A number, or none.
fn number(value: Option<i64>) -> Option<Value>
    ensures { result ≡ option_map Number value }
{
    match value {
        None => None,
        Some(number) => Some(Value::Number(number)),
    }
}

/// What an operator gives on two numbers of a type.
pub fn arithmetic(operator: Arithmetic, of: IntegerType, left: Value, right: Value) -> Option<Value>
    ensures { result ≡ arithmetic operator of left right }
{
    match (left, right) {
        (Value::Number(a), Value::Number(b)) => number(calculated(operator, of, a, b)),
        _ => None,
    }
}

/// What a sign gives on a number of a promoted type.
pub fn signed(sign: Sign, of: IntegerType, operand: Value) -> Option<Value>
    ensures { result ≡ value_with_sign sign of operand }
{
    match operand {
        Value::Number(a) => number(c_type_rules::signed(sign, of, a)),
        _ => None,
    }
}

/// A number converted to an integer type.
pub fn convert(of: IntegerType, operand: Value) -> Option<Value>
    ensures { result ≡ convert of operand }
{
    match operand {
        Value::Number(a) => Some(Value::Number(wrapped(of, i128::from(a)))),
        _ => None,
    }
}

/// What a comparison of two numbers gives.
pub fn comparison(operator: Comparison, left: Value, right: Value) -> Option<Value>
    ensures { result ≡ comparison operator left right }
{
    match (left, right) {
        (Value::Number(a), Value::Number(b)) => Some(Value::Number(truth(compared(
            operator, a, b,
        )))),
        _ => None,
    }
}

/// Whether two pointers are equal.
fn is_same_pointer(left: Value, right: Value) -> bool
    ensures { result ≡ is_same_pointer left right }
{
    match (left, right) {
        (Value::Null, Value::Null) => true,
        (
            Value::Pointer {
                object: n,
                offset: i,
            },
            Value::Pointer {
                object: m,
                offset: j,
            },
        ) => n == m && i == j,
        _ => false,
    }
}

/// What a comparison of two offsets gives.
fn offsets_compared(operator: Comparison, i: u128, j: u128) -> i64
    ensures { result ≡ comparison_value operator (pos i) (pos j) }
{
    match operator {
        Comparison::Less => truth(i < j),
        Comparison::Greater => truth(j < i),
        Comparison::LessEqual => truth(i <= j),
        Comparison::GreaterEqual => truth(j <= i),
        Comparison::Equal => truth(i == j),
        Comparison::NotEqual => truth(i != j),
    }
}

/// What an order of two pointers into one object gives.
fn order_of(operator: Comparison, left: Value, right: Value) -> Option<Value>
    ensures { result ≡ order_of operator left right }
{
    match (left, right) {
        (
            Value::Pointer {
                object: n,
                offset: i,
            },
            Value::Pointer {
                object: m,
                offset: j,
            },
        ) => {
            if n == m {
                Some(Value::Number(offsets_compared(operator, i, j)))
            } else {
                None
            }
        }
        _ => None,
    }
}

/// What a comparison of two pointers gives, where they may be used.
fn pointers_compared(operator: Comparison, left: Value, right: Value) -> Option<Value>
    ensures { result ≡ pointers_compared operator left right }
{
    match operator {
        Comparison::Equal => Some(Value::Number(truth(is_same_pointer(left, right)))),
        Comparison::NotEqual => Some(Value::Number(truth(!is_same_pointer(left, right)))),
        Comparison::Less | Comparison::Greater | Comparison::LessEqual | Comparison::GreaterEqual =>
            order_of(operator, left, right),
    }
}

/// What a comparison of two pointers gives; none where one points to an object that has ended.
pub fn pointer_comparison(
    memory: &[Object],
    operator: Comparison,
    left: Value,
    right: Value,
) -> Option<Value>
    ensures { result ≡ pointer_comparison (map object_view memory.now) operator left right }
{
    if is_usable(memory, left) && is_usable(memory, right) {
        pointers_compared(operator, left, right)
    } else {
        None
    }
}

/// How many elements of a size lie between two offsets, as an `int`.
fn elements_from(size: u64, i: u128, j: u128) -> Option<i64>
    ensures { result ≡ elements_from size i j }
{
    if size == 0 {
        return None;
    }
    if j <= i {
        let count = (i - j) / u128::from(size);
        if count <= 2147483647 {
            Some(count as i64)
        } else {
            None
        }
    } else {
        let count = (j - i) / u128::from(size);
        if count <= 2147483648 {
            Some(0 - count as i64)
        } else {
            None
        }
    }
}

/// How many elements of a size lie between two pointers into one object.
fn elements_between(size: u64, left: Value, right: Value) -> Option<Value>
    ensures { result ≡ elements_between size left right }
{
    match (left, right) {
        (
            Value::Pointer {
                object: n,
                offset: i,
            },
            Value::Pointer {
                object: m,
                offset: j,
            },
        ) => {
            if n == m {
                number(elements_from(size, i, j))
            } else {
                None
            }
        }
        _ => None,
    }
}

/// How many elements of a type lie between two pointers; none where one points to an object that has ended.
pub fn pointer_difference(
    memory: &[Object],
    element: ObjectType,
    left: Value,
    right: Value,
) -> Option<Value>
    ensures { result ≡ pointer_difference (map object_view memory.now) element left right }
{
    if is_usable(memory, left) && is_usable(memory, right) {
        elements_between(size(element), left, right)
    } else {
        None
    }
}

/// One element in bytes, up or down.
fn stride(direction: Direction, element: ObjectType) -> i64
    ensures { result ≡ stride direction element }
{
    match direction {
        Direction::Up => size(element) as i64,
        Direction::Down => 0 - size(element) as i64,
    }
}

/// A product.
fn product(left: i64, right: i64) -> i128
    ensures { result ≡ left *ℤ right }
{
    i128::from(left) * i128::from(right)
}

/// So many elements in bytes, up or down.
fn distance(direction: Direction, element: ObjectType, count: i64) -> i128
    ensures { result ≡ bytes_moved direction element count }
{
    product(count, stride(direction, element))
}

/// A pointer moved by so many elements.
pub fn moved_by(
    memory: &[Object],
    direction: Direction,
    element: ObjectType,
    pointer: Value,
    by: Value,
) -> Option<Value>
    ensures { result ≡ moved_by_elements (map object_view memory.now) direction element pointer by }
{
    match by {
        Value::Number(count) => moved(memory, pointer, distance(direction, element, count)),
        _ => None,
    }
}

/// Whether a value is true: a number that is not 0, or a pointer that is not null.
pub fn is_true(value: Value) -> bool
    ensures { result ≡ is_true value }
{
    match value {
        Value::Number(number) => number != 0,
        Value::Null => false,
        Value::Pointer { .. } => true,
    }
}
