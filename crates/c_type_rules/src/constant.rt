//! The operators of C on whole numbers of integer types; none where C leaves the result undefined (6.5 and 6.6).

ghost use Rattle.std.specs.Prelude.{◌≢◌, ◌==◌, ◌*ℤ◌, ◌^◌, pos, false, int_div, int_rem, int_lt, ◌&&◌, ◌≡◌, ◌<◌, IfSome, if◌then◌else◌, unsigned_abs};
ghost use Rattle.word_base.specs.Types.{in_range};
ghost use Rattle.word_base.specs.Operations.{result_of_type, is_shift_count, left_shift, quotient, remainder, right_shift};
ghost use Rattle.c_type_rules.specs.Integers.{integer};
ghost use Rattle.c_type_rules.specs.Constants.{calculated, comparison_holds, constant_with_sign};

use crate::integer::{bits, bits_of, fits, is_signed, number_of, wrapped};
use c_tree::{Arithmetic, Comparison, IntegerType, Sign};

/// A number of a type, or none.
pub fn in_range(of: IntegerType, number: i128) -> Option<i64>
    ensures { result ≡ in_range (integer of) number }
{
    if fits(of, number) {
        Some(number as i64)
    } else {
        None
    }
}

/// A result of a type: one that does not fit is none in a signed type, and converted in an unsigned one (6.2.5p9,
/// 6.5p5).
fn kept(of: IntegerType, number: i128) -> Option<i64>
    ensures { result ≡ result_of_type (integer of) number }
{
    if is_signed(of) {
        in_range(of, number)
    } else {
        Some(wrapped(of, number))
    }
}

/// The whole quotient, rounded toward zero.
fn divided(left: i64, right: i64) -> i128
    requires { right ≢ pos 0 }
    ensures { result ≡ int_div left right }
{
    i128::from(left) / i128::from(right)
}

/// What a division leaves, with the sign of `left`.
fn left_over(left: i64, right: i64) -> i64
    requires { right ≢ pos 0 }
    ensures { result ≡ int_rem left right }
{
    (i128::from(left) % i128::from(right)) as i64
}

/// Whether a number is 0.
fn is_zero(number: i64) -> bool
    ensures value { result ≡ (unsigned_abs number == 0) }
    ensures other { result ≡ false → number ≢ pos 0 }
{
    number == 0
}

/// `left / right`, rounded toward zero.
fn quotient(of: IntegerType, left: i64, right: i64) -> Option<i64>
    ensures { result ≡ quotient (integer of) left right }
{
    if is_zero(right) {
        return None;
    }
    in_range(of, divided(left, right))
}

/// `left % right`, which has the sign of `left`.
fn remainder(of: IntegerType, left: i64, right: i64) -> Option<i64>
    ensures { result ≡ remainder (integer of) left right }
{
    if is_zero(right) {
        return None;
    }
    if fits(of, divided(left, right)) {
        Some(left_over(left, right))
    } else {
        None
    }
}

/// A shift's count, if it is one: it is not negative, and below how many bits the left operand has (6.5.7).
fn count(of: IntegerType, by: i64) -> Option<u32>
    ensures number { result ≡ (if is_shift_count (integer of) by then Some (unsigned_abs by) else None) }
    ensures bounded { IfSome result (λ n. n < 32) }
{
    if by < 0 || i64::from(bits(of)) <= by {
        return None;
    }
    Some(by as u32)
}

/// A number times a power of two.
fn shifted(left: i64, by: u32) -> i128
    requires { by < 32 }
    ensures { result ≡ left *ℤ pos (2 ^ by) }
{
    i128::from(left) * i128::from(1u32 << by)
}

/// A product.
fn product(left: i64, right: i64) -> i128
    ensures { result ≡ left *ℤ right }
{
    i128::from(left) * i128::from(right)
}

/// Whether a left operand is negative, in a type that has negative numbers.
fn is_below_zero(of: IntegerType, left: i64) -> bool
    ensures { result ≡ ((integer of).is_signed && int_lt left (pos 0)) }
{
    is_signed(of) && left < 0
}

/// A left operand times a power of two, as a result of its type.
fn left_shifted(of: IntegerType, left: i64, by: u32) -> Option<i64>
    requires { by < 32 }
    ensures { result ≡ result_of_type (integer of) (left *ℤ pos (2 ^ by)) }
{
    kept(of, shifted(left, by))
}

/// `left << by`; none of a negative number (6.5.7).
fn left_shift(of: IntegerType, left: i64, by: i64) -> Option<i64>
    ensures { result ≡ left_shift (integer of) left by }
{
    let by = count(of, by)?;
    if is_below_zero(of, left) {
        return None;
    }
    left_shifted(of, left, by)
}

/// `left >> by`, rounded down.
fn right_shift(of: IntegerType, left: i64, by: i64) -> Option<i64>
    ensures { result ≡ right_shift (integer of) left by }
{
    let by = count(of, by)?;
    Some(left >> by)
}

/// What an operator gives on two numbers of a type, the right one of a shift of its own; none where C leaves it
/// undefined.
pub fn calculated(operator: Arithmetic, of: IntegerType, left: i64, right: i64) -> Option<i64>
    ensures { result ≡ calculated operator of left right }
{
    let (a, b) = (i128::from(left), i128::from(right));
    match operator {
        Arithmetic::Multiply => kept(of, product(left, right)),
        Arithmetic::Divide => quotient(of, left, right),
        Arithmetic::Remainder => remainder(of, left, right),
        Arithmetic::Add => kept(of, a + b),
        Arithmetic::Subtract => kept(of, a - b),
        Arithmetic::ShiftLeft => left_shift(of, left, right),
        Arithmetic::ShiftRight => right_shift(of, left, right),
        Arithmetic::BitAnd => Some(number_of(of, bits_of(of, a) & bits_of(of, b))),
        Arithmetic::BitXor => Some(number_of(of, bits_of(of, a) ^ bits_of(of, b))),
        Arithmetic::BitOr => Some(number_of(of, bits_of(of, a) | bits_of(of, b))),
    }
}

/// Whether a comparison of two numbers holds.
pub fn compared(operator: Comparison, left: i64, right: i64) -> bool
    ensures { result ≡ comparison_holds operator left right }
{
    match operator {
        Comparison::Less => left < right,
        Comparison::Greater => right < left,
        Comparison::LessEqual => left <= right,
        Comparison::GreaterEqual => right <= left,
        Comparison::Equal => left == right,
        Comparison::NotEqual => left != right,
    }
}

/// What a sign gives on a number of a type; none where it does not fit.
pub fn signed(sign: Sign, of: IntegerType, number: i64) -> Option<i64>
    ensures { result ≡ constant_with_sign sign of number }
{
    match sign {
        Sign::Plus => Some(number),
        Sign::Minus => kept(of, 0 - i128::from(number)),
        Sign::Complement => Some(wrapped(of, -1 - i128::from(number))),
    }
}
