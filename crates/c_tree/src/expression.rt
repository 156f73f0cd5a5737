//! Expressions (ISO/IEC 9899:2011, 6.5).

ghost use Rattle.std.specs.Prelude.{◌≡◌};
ghost use Rattle.c_tree.specs.Expressions.{expression_view, suffix_view};
ghost use Rattle.c_tree.specs.Cores.{core_of, core_view};
ghost use Rattle.c_tree.specs.Ends.{first_spot, last_of, suffix_last};

use crate::extent::{Extent, Identifier};
use crate::operator::{AssignmentOperator, BinaryOperator, PrefixOperator};
use crate::types::{IntegerType, TypeName};
use debug_records::Spot;

/// An expression.
///
/// Operators of one level stand in a list beside their first operand, so that a long chain makes no deep tree.
#[cycle(expression)]
#[derive(Drop)]
pub enum Expression {
    /// A name.
    Name(Identifier),
    /// An integer or character constant.
    Constant {
        spot: Spot,
        value: u32,
        integer_type: IntegerType,
    },
    /// One or more string literals side by side, joined: their bytes without the final zero.
    Literal {
        extent: Extent,
        bytes: Vec<u8>,
    },
    /// An expression in parentheses, which belong to the extent.
    Parenthesized {
        extent: Extent,
        inner: Box<Expression>,
    },
    /// An operand with one or more suffixes, the innermost first: `a[1]++` has `[1]` and `++`.
    Postfix {
        operand: Box<Expression>,
        suffixes: Vec<Suffix>,
    },
    /// An operator and its operand.
    Prefix {
        spot: Spot,
        operator: PrefixOperator,
        operand: Box<Expression>,
    },
    /// `(int)a`
    Cast {
        spot: Spot,
        type_name: TypeName,
        operand: Box<Expression>,
    },
    /// `sizeof a`, where `a` may stand in parentheses.
    SizeofExpression {
        spot: Spot,
        operand: Box<Expression>,
    },
    /// `sizeof(int *)`, or with a size `sizeof(int [3])`. The extent ends with the parenthesis.
    SizeofType {
        extent: Extent,
        integer_type: IntegerType,
        stars: usize,
        size: Option<Box<Expression>>,
    },
    /// An operand and one or more operators of one level, each with its right operand: `a-b+c` is `(a-b)+c`.
    Binary {
        first: Box<Expression>,
        operations: Vec<(BinaryOperator, Expression)>,
    },
    /// `a?b:c`
    Conditional {
        condition: Box<Expression>,
        then: Box<Expression>,
        otherwise: Box<Expression>,
    },
    /// `a=b`, `a+=b`
    Assignment {
        operator: AssignmentOperator,
        target: Box<Expression>,
        value: Box<Expression>,
    },
    /// Two or more expressions with commas between them.
    Comma {
        first: Box<Expression>,
        rest: Vec<Expression>,
    },
}

/// What stands behind an operand (6.5.2), with the offset of its last token.
#[cycle(expression)]
#[derive(Drop)]
pub enum Suffix {
    /// `[i]`
    Index {
        index: Expression,
        last: u32,
    },
    /// `(a,b)`
    Call {
        arguments: Vec<Expression>,
        last: u32,
    },
    /// `++`
    Increment {
        last: u32,
    },
    /// `--`
    Decrement {
        last: u32,
    },
}

/// What an expression is, once the parentheses around all of it are left out.
#[derive(Clone, Copy)]
pub enum Core<'a> {
    /// A name.
    Name(&'a Identifier),
    /// An integer or character constant.
    Constant {
        spot: Spot,
        value: u32,
        integer_type: IntegerType,
    },
    /// String literals, joined: their bytes without the final zero.
    Literal {
        extent: Extent,
        bytes: &'a [u8],
    },
    /// An expression with operators.
    Compound,
}

impl Expression {
    /// What it is, once the parentheses around all of it are left out.
    pub fn core(&self) -> Core<'_>
        ensures { core_view result ≡ core_of (expression_view self.now) }
    {
        match self {
            Expression::Name(identifier) => Core::Name(identifier),
            Expression::Constant {
                spot,
                value,
                integer_type,
            } => Core::Constant {
                spot: *spot,
                value: *value,
                integer_type: *integer_type,
            },
            Expression::Literal { extent, bytes } => Core::Literal {
                extent: *extent,
                bytes,
            },
            Expression::Parenthesized { inner, .. } => inner.core(),
            Expression::Postfix { operand, suffixes } => {
                if suffixes.is_empty() {
                    return operand.core();
                }
                Core::Compound
            }
            Expression::Binary { first, operations } => {
                if operations.is_empty() {
                    return first.core();
                }
                Core::Compound
            }
            Expression::Comma { first, rest } => {
                if rest.is_empty() {
                    return first.core();
                }
                Core::Compound
            }
            Expression::Prefix { .. }
            | Expression::Cast { .. }
            | Expression::SizeofExpression { .. }
            | Expression::SizeofType { .. }
            | Expression::Conditional { .. }
            | Expression::Assignment { .. } => Core::Compound,
        }
    }

    /// Where its first token stands.
    #[tactic(auto, using(crate::proofs::Chains::suffixes_first, crate::proofs::Chains::operations_first, crate::proofs::Chains::commas_first))]
    pub fn first(&self) -> Spot
        ensures { result ≡ first_spot (expression_view self.now) }
    {
        match self {
            Expression::Name(identifier) => identifier.spot,
            Expression::Constant { spot, .. }
            | Expression::Prefix { spot, .. }
            | Expression::Cast { spot, .. }
            | Expression::SizeofExpression { spot, .. } => *spot,
            Expression::Literal { extent, .. }
            | Expression::Parenthesized { extent, .. }
            | Expression::SizeofType { extent, .. } => extent.first,
            Expression::Postfix { operand, .. } => operand.first(),
            Expression::Binary { first, .. } => first.first(),
            Expression::Conditional { condition, .. } => condition.first(),
            Expression::Assignment { target, .. } => target.first(),
            Expression::Comma { first, .. } => first.first(),
        }
    }

    /// The offset of its last token.
    pub fn last(&self) -> u32
        ensures { result ≡ last_of (expression_view self.now) }
    {
        match self {
            Expression::Name(identifier) => identifier.spot.at,
            Expression::Constant { spot, .. } => spot.at,
            Expression::Literal { extent, .. }
            | Expression::Parenthesized { extent, .. }
            | Expression::SizeofType { extent, .. } => extent.last,
            Expression::Prefix { operand: last, .. }
            | Expression::Cast { operand: last, .. }
            | Expression::SizeofExpression { operand: last, .. }
            | Expression::Conditional {
                otherwise: last,
                ..
            }
            | Expression::Assignment { value: last, .. } => last.last(),
            Expression::Postfix { operand, suffixes } => match suffixes.last() {
                Some(suffix) => suffix.last(),
                None => operand.last(),
            },
            Expression::Binary { first, operations } => match operations.last() {
                Some((_, right)) => right.last(),
                None => first.last(),
            },
            Expression::Comma { first, rest } => match rest.last() {
                Some(right) => right.last(),
                None => first.last(),
            },
        }
    }
}

impl Suffix {
    /// The offset of its last token.
    pub fn last(&self) -> u32
        ensures { result ≡ suffix_last (suffix_view self.now) }
    {
        match self {
            Suffix::Index { last, .. }
            | Suffix::Call { last, .. }
            | Suffix::Increment { last }
            | Suffix::Decrement { last } => *last,
        }
    }
}
