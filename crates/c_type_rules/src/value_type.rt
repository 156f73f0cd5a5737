//! The types of the values of typed expressions (ISO/IEC 9899:2011, 6.5).

ghost use Rattle.std.specs.Prelude.{◌≡◌, IfOk, map};
ghost use Rattle.c_tree.specs.Programs.{function_view};
ghost use Rattle.c_tree.specs.TypedExpressions.{lvalue_view, rvalue_view};
ghost use Rattle.c_type_rules.specs.ValueTypes.{decayed, given_by, integer_in, is_pointer, is_void, object_type, results_of, type_of};

use crate::loaded;
use c_tree::{Callee, IntegerType, Lvalue, ObjectType, Rvalue, Scalar, TypedFunction, ValueType};
use std::alloc::{AllocError, Global};

/// The types of what functions give, by their numbers.
pub fn results_of(alloc: Global, functions: &[TypedFunction]) -> Result<Vec<ValueType>, AllocError>
    ensures { IfOk result (λ v. v.items ≡ results_of (map function_view functions.now)) }
{
    let mut results = Vec::new(alloc);
    for function in functions {
        results.push(function.result)?;
    }
    Ok(results)
}

/// The type of the object that an lvalue designates.
pub fn object_type(l: &Lvalue) -> ObjectType
    ensures { result ≡ object_type (lvalue_view l.now) }
{
    match l {
        Lvalue::Named { of, .. }
        | Lvalue::Target { of, .. }
        | Lvalue::Element { of, .. }
        | Lvalue::ElementFrom { of, .. } => *of,
    }
}

/// The type of a pointer to the first element of an array.
pub fn decayed(of: ObjectType) -> ValueType
    ensures { result ≡ decayed of }
{
    match of {
        ObjectType::Scalar(_) => ValueType::Void,
        ObjectType::Array { element, .. } => ValueType::Pointer(ObjectType::Scalar(element)),
    }
}

/// The type of what a call gives, where these are the types of what functions give.
pub fn given_by(results: &[ValueType], callee: Callee) -> ValueType
    ensures { result ≡ given_by results.now callee }
{
    match callee {
        Callee::Function(number) => match results.get(number as usize) {
            None => ValueType::Void,
            Some(given) => *given,
        },
        Callee::Getchar | Callee::Putchar => ValueType::Integer(IntegerType::Int),
        Callee::Exit => ValueType::Void,
    }
}

/// The type of an expression's value; for the null pointer, which is of each pointer type, that of a pointer to
/// characters.
pub fn type_of(results: &[ValueType], e: &Rvalue) -> ValueType
    ensures { result ≡ type_of results.now (rvalue_view e.now) }
{
    match e {
        Rvalue::Null => ValueType::Pointer(ObjectType::Scalar(Scalar {
            base: IntegerType::Char,
            stars: 0,
        })),
        Rvalue::Load { scalar, .. } | Rvalue::Assign { scalar, .. } => loaded(*scalar),
        Rvalue::Decay(from) => decayed(object_type(from)),
        Rvalue::AddressOf(from) => ValueType::Pointer(object_type(from)),
        Rvalue::Constant {
            integer_type: of,
            ..
        }
        | Rvalue::Convert { to: of, .. }
        | Rvalue::Signed {
            integer_type: of,
            ..
        }
        | Rvalue::Arithmetic {
            integer_type: of,
            ..
        }
        | Rvalue::Update {
            target_type: of,
            ..
        }
        | Rvalue::Step {
            target_type: of,
            ..
        } => ValueType::Integer(*of),
        Rvalue::Discard(_) => ValueType::Void,
        Rvalue::Not(_)
        | Rvalue::Compare { .. }
        | Rvalue::ComparePointers { .. }
        | Rvalue::Difference { .. }
        | Rvalue::And(_, _)
        | Rvalue::Or(_, _) => ValueType::Integer(IntegerType::Int),
        Rvalue::Move { element, .. }
        | Rvalue::MoveFrom { element, .. }
        | Rvalue::UpdatePointer { element, .. }
        | Rvalue::StepPointer { element, .. } => ValueType::Pointer(*element),
        Rvalue::Conditional { then: value, .. } | Rvalue::Comma(_, value) => type_of(
            results, value,
        ),
        Rvalue::Call { callee, .. } => given_by(results, *callee),
    }
}

/// Whether a type is that of no value.
pub fn is_void(of: ValueType) -> bool
    ensures { result ≡ is_void of }
{
    matches!(of, ValueType::Void)
}

/// Whether a type is a pointer's.
pub fn is_pointer(of: ValueType) -> bool
    ensures { result ≡ is_pointer of }
{
    matches!(of, ValueType::Pointer(_))
}

/// The integer type of a value, `int` for one of no integer type.
pub fn integer_in(of: ValueType) -> IntegerType
    ensures { result ≡ integer_in of }
{
    match of {
        ValueType::Integer(integer) => integer,
        _ => IntegerType::Int,
    }
}
