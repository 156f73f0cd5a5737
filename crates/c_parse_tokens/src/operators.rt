//! Operators, and the levels at which they bind.

ghost use Rattle.std.specs.Prelude.{◌≡◌, ◌<◌, length, IfSome};
ghost use Rattle.std.specs.Option.{option_map};
ghost use Rattle.c_token.specs.Lexemes.{word_view, lexemes};
ghost use Rattle.c_parse_tokens.specs.Operators.{binary_operator, operator_at, assignment_operator, assignment_at, prefix_operator, is_beginning, begins_expression};

use c_token::{Keyword, Kind, Punctuator, Token};
use c_tree::{Arithmetic, AssignmentOperator, BinaryOperator, PrefixOperator};

/// How many levels of operators there are between two operands; the first binds tightest.
pub const LEVELS: usize = 10;

/// The level of an operator between two operands, and which it is.
#[tactic(auto, unfolding(crate::specs::Operators::binary_operator))]
fn binary_operator(punctuator: Punctuator) -> Option<(usize, BinaryOperator)>
    ensures { result ≡ binary_operator punctuator }
{
    match punctuator {
        Punctuator::Star => Some((1, BinaryOperator::Multiply)),
        Punctuator::Slash => Some((1, BinaryOperator::Divide)),
        Punctuator::Percent => Some((1, BinaryOperator::Remainder)),
        Punctuator::Plus => Some((2, BinaryOperator::Add)),
        Punctuator::Minus => Some((2, BinaryOperator::Subtract)),
        Punctuator::ShiftLeft => Some((3, BinaryOperator::ShiftLeft)),
        Punctuator::ShiftRight => Some((3, BinaryOperator::ShiftRight)),
        Punctuator::Less => Some((4, BinaryOperator::Less)),
        Punctuator::Greater => Some((4, BinaryOperator::Greater)),
        Punctuator::LessEqual => Some((4, BinaryOperator::LessEqual)),
        Punctuator::GreaterEqual => Some((4, BinaryOperator::GreaterEqual)),
        Punctuator::EqualEqual => Some((5, BinaryOperator::Equal)),
        Punctuator::NotEqual => Some((5, BinaryOperator::NotEqual)),
        Punctuator::Ampersand => Some((6, BinaryOperator::BitAnd)),
        Punctuator::Caret => Some((7, BinaryOperator::BitXor)),
        Punctuator::Bar => Some((8, BinaryOperator::BitOr)),
        Punctuator::AndAnd => Some((9, BinaryOperator::LogicalAnd)),
        Punctuator::OrOr => Some((10, BinaryOperator::LogicalOr)),
        _ => None,
    }
}

/// The operator of a level at the front, and the tokens behind it.
#[tactic(auto, unfolding(crate::specs::Operators::operator_at))]
pub fn operator_at(level: usize, tokens: &[Token]) -> Option<(BinaryOperator, &[Token])>
    ensures reads { option_map (λ x. (x.0, lexemes x.1.now)) result ≡ operator_at level (lexemes tokens.now) }
    ensures shorter { IfSome result (λ x. length x.1.now < length tokens.now) }
{
    let [
        Token {
            kind: Kind::Punctuator(punctuator),
            ..
        },
        rest @ ..,
    ] = tokens
    else {
        return None;
    };
    let (of_level, operator) = binary_operator(*punctuator)?;
    if of_level == level {
        Some((operator, rest))
    } else {
        None
    }
}

/// The operator that assigns.
#[tactic(auto, unfolding(crate::specs::Operators::assignment_operator))]
fn assignment_operator(punctuator: Punctuator) -> Option<AssignmentOperator>
    ensures { result ≡ assignment_operator punctuator }
{
    match punctuator {
        Punctuator::Equal => Some(AssignmentOperator::Assign),
        Punctuator::StarEqual => Some(AssignmentOperator::With(Arithmetic::Multiply)),
        Punctuator::SlashEqual => Some(AssignmentOperator::With(Arithmetic::Divide)),
        Punctuator::PercentEqual => Some(AssignmentOperator::With(Arithmetic::Remainder)),
        Punctuator::PlusEqual => Some(AssignmentOperator::With(Arithmetic::Add)),
        Punctuator::MinusEqual => Some(AssignmentOperator::With(Arithmetic::Subtract)),
        Punctuator::ShiftLeftEqual => Some(AssignmentOperator::With(Arithmetic::ShiftLeft)),
        Punctuator::ShiftRightEqual => Some(AssignmentOperator::With(Arithmetic::ShiftRight)),
        Punctuator::AmpersandEqual => Some(AssignmentOperator::With(Arithmetic::BitAnd)),
        Punctuator::CaretEqual => Some(AssignmentOperator::With(Arithmetic::BitXor)),
        Punctuator::BarEqual => Some(AssignmentOperator::With(Arithmetic::BitOr)),
        _ => None,
    }
}

/// The operator that assigns at the front, and the tokens behind it.
#[tactic(auto, unfolding(crate::specs::Operators::assignment_at))]
pub fn assignment_at(tokens: &[Token]) -> Option<(AssignmentOperator, &[Token])>
    ensures reads { option_map (λ x. (x.0, lexemes x.1.now)) result ≡ assignment_at (lexemes tokens.now) }
    ensures shorter { IfSome result (λ x. length x.1.now < length tokens.now) }
{
    let [
        Token {
            kind: Kind::Punctuator(punctuator),
            ..
        },
        rest @ ..,
    ] = tokens
    else {
        return None;
    };
    let operator = assignment_operator(*punctuator)?;
    Some((operator, rest))
}

/// The operator before its operand.
#[tactic(auto, unfolding(crate::specs::Operators::prefix_operator))]
pub fn prefix_operator(punctuator: Punctuator) -> Option<PrefixOperator>
    ensures { result ≡ prefix_operator punctuator }
{
    match punctuator {
        Punctuator::Ampersand => Some(PrefixOperator::AddressOf),
        Punctuator::Star => Some(PrefixOperator::Indirection),
        Punctuator::Plus => Some(PrefixOperator::Plus),
        Punctuator::Minus => Some(PrefixOperator::Minus),
        Punctuator::Tilde => Some(PrefixOperator::Complement),
        Punctuator::Exclamation => Some(PrefixOperator::Not),
        Punctuator::Increment => Some(PrefixOperator::Increment),
        Punctuator::Decrement => Some(PrefixOperator::Decrement),
        _ => None,
    }
}

/// The token begins an expression.
fn is_beginning(kind: &Kind) -> bool
    ensures { result ≡ is_beginning (word_view kind.now) }
{
    match kind {
        Kind::Name(_) | Kind::Constant(_) | Kind::Literal(_) => true,
        Kind::Keyword(keyword) => matches!(keyword, Keyword::Sizeof),
        Kind::Punctuator(Punctuator::OpenParenthesis) => true,
        Kind::Punctuator(punctuator) => prefix_operator(*punctuator).is_some(),
        Kind::Include(_) => false,
    }
}

/// The first token begins an expression.
#[tactic(auto, unfolding(crate::specs::Operators::begins_expression))]
pub fn begins_expression(tokens: &[Token]) -> bool
    ensures { result ≡ begins_expression (lexemes tokens.now) }
{
    match tokens {
        [] => false,
        [first, ..] => is_beginning(&first.kind),
    }
}
