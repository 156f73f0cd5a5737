//! Whether an expression is a constant expression (6.6).

ghost use Rattle.std.specs.Prelude.{◌≡◌};
ghost use Rattle.word_base.specs.Operations.{truth};
ghost use Rattle.c_type_rules.specs.Constancies.{and_constant, arithmetic_constant, comparison_constant, conditional_constant, converted_constant, is_formed, not_constant, only_formed, or_constant, or_formed, sign_constant, truth_constant};

use crate::constant::{calculated, compared, signed};
use crate::integer::wrapped;
use c_tree::{Arithmetic, Comparison, IntegerType, Object, Sign};

/// Whether an expression is a constant expression, and which constant.
#[derive(Clone, Copy, PartialEq, Eq)]
pub enum Constancy {
    /// It is none.
    Varies,
    /// It has the form of an integer constant expression, and a value that C leaves undefined.
    Formed,
    /// An integer constant expression, or the null pointer as 0, with its value.
    Known(i64),
    /// An address constant: so many bytes into an object of static storage.
    Address(Object, u64),
}

/// Whether an expression has the form of an integer constant expression.
pub fn is_formed(constant: Constancy) -> bool
    ensures { result ≡ is_formed constant }
{
    match constant {
        Constancy::Varies | Constancy::Address(..) => false,
        Constancy::Formed | Constancy::Known(_) => true,
    }
}

/// Of two operands of that form, the form alone.
fn only_formed(left: Constancy, right: Constancy) -> Constancy
    ensures { result ≡ only_formed left right }
{
    if is_formed(left) && is_formed(right) {
        Constancy::Formed
    } else {
        Constancy::Varies
    }
}

fn or_formed(value: Option<i64>) -> Constancy
    ensures { result ≡ or_formed value }
{
    match value {
        None => Constancy::Formed,
        Some(number) => Constancy::Known(number),
    }
}

/// The `int` that a test gives: 1 where it holds, and else 0.
pub fn truth(test: bool) -> i64
    ensures { result ≡ truth test }
{
    if test { 1 } else { 0 }
}

/// Of a conversion to an integer type.
pub fn converted_constant(to: IntegerType, operand: Constancy) -> Constancy
    ensures { result ≡ converted_constant to operand }
{
    match operand {
        Constancy::Known(number) => Constancy::Known(wrapped(to, i128::from(number))),
        other => other,
    }
}

/// Of `+`, `-` or `~` in a type.
pub fn sign_constant(sign: Sign, of: IntegerType, operand: Constancy) -> Constancy
    ensures { result ≡ sign_constant sign of operand }
{
    match operand {
        Constancy::Known(number) => or_formed(signed(sign, of, number)),
        other => other,
    }
}

/// Of `!`.
pub fn not_constant(operand: Constancy) -> Constancy
    ensures { result ≡ not_constant operand }
{
    match operand {
        Constancy::Known(number) => Constancy::Known(truth(number == 0)),
        other => only_formed(other, other),
    }
}

/// Of arithmetic in a type.
pub fn arithmetic_constant(
    operator: Arithmetic,
    of: IntegerType,
    left: Constancy,
    right: Constancy,
) -> Constancy
    ensures { result ≡ arithmetic_constant operator of left right }
{
    match (left, right) {
        (Constancy::Known(a), Constancy::Known(b)) => or_formed(calculated(operator, of, a, b)),
        _ => only_formed(left, right),
    }
}

/// Of a comparison.
pub fn comparison_constant(operator: Comparison, left: Constancy, right: Constancy) -> Constancy
    ensures { result ≡ comparison_constant operator left right }
{
    match (left, right) {
        (Constancy::Known(a), Constancy::Known(b)) => Constancy::Known(truth(compared(
            operator, a, b,
        ))),
        _ => only_formed(left, right),
    }
}

/// Whether a value is not 0, as a constant.
fn truth_constant(operand: Constancy) -> Constancy
    ensures { result ≡ truth_constant operand }
{
    not_constant(not_constant(operand))
}

/// Of `&&`: where the left operand is 0, the right one is not evaluated, and only its form counts.
pub fn and_constant(left: Constancy, right: Constancy) -> Constancy
    ensures { result ≡ and_constant left right }
{
    match left {
        Constancy::Known(0) => {
            if is_formed(right) {
                Constancy::Known(0)
            } else {
                Constancy::Varies
            }
        }
        Constancy::Known(_) => truth_constant(right),
        other => only_formed(other, right),
    }
}

/// Of `||`: where the left operand is not 0, the right one is not evaluated, and only its form counts.
pub fn or_constant(left: Constancy, right: Constancy) -> Constancy
    ensures { result ≡ or_constant left right }
{
    match left {
        Constancy::Known(0) => truth_constant(right),
        Constancy::Known(_) => {
            if is_formed(right) {
                Constancy::Known(1)
            } else {
                Constancy::Varies
            }
        }
        other => only_formed(other, right),
    }
}

/// Of `?:` on integers: of the arm that is not evaluated only the form counts.
pub fn conditional_constant(
    condition: Constancy,
    then: Constancy,
    otherwise: Constancy,
) -> Constancy
    ensures { result ≡ conditional_constant condition then otherwise }
{
    if !is_formed(then) || !is_formed(otherwise) {
        return Constancy::Varies;
    }
    match condition {
        Constancy::Known(0) => otherwise,
        Constancy::Known(_) => then,
        other => only_formed(other, then),
    }
}
