//! Operators.

use crate::typed_expression::Arithmetic;

/// An operator between two operands that associates to the left, but for the comma (ISO/IEC 9899:2011, 6.5.5 to
/// 6.5.14).
#[derive(Clone, Copy, PartialEq, Eq)]
pub enum BinaryOperator {
    /// `*`
    Multiply,
    /// `/`
    Divide,
    /// `%`
    Remainder,
    /// `+`
    Add,
    /// `-`
    Subtract,
    /// `<<`
    ShiftLeft,
    /// `>>`
    ShiftRight,
    /// `<`
    Less,
    /// `>`
    Greater,
    /// `<=`
    LessEqual,
    /// `>=`
    GreaterEqual,
    /// `==`
    Equal,
    /// `!=`
    NotEqual,
    /// `&`
    BitAnd,
    /// `^`
    BitXor,
    /// `|`
    BitOr,
    /// `&&`
    LogicalAnd,
    /// `||`
    LogicalOr,
}

/// An operator before its operand (6.5.3).
#[derive(Clone, Copy, PartialEq, Eq)]
pub enum PrefixOperator {
    /// `&`
    AddressOf,
    /// `*`
    Indirection,
    /// `+`
    Plus,
    /// `-`
    Minus,
    /// `~`
    Complement,
    /// `!`
    Not,
    /// `++`
    Increment,
    /// `--`
    Decrement,
}

/// An operator that assigns its right side to its left side (6.5.16).
#[derive(Clone, Copy, PartialEq, Eq)]
pub enum AssignmentOperator {
    /// A plain assignment.
    Assign,
    /// An assignment with what an operation makes of both sides.
    With(Arithmetic),
}
