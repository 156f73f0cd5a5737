//! What expressions weigh.

ghost use Rattle.std.specs.Prelude.{◌≡◌, fold, map};
ghost use Rattle.std.specs.Option.{option_map};
ghost use Rattle.c_tree.specs.Declarations.{brackets_view, chain_of_initializers as initializer_chain, declarator_view, initializer_view};
ghost use Rattle.c_tree.specs.Expressions.{Comma, ExpressionTree, chain_of_arguments, expression_view, operation, suffix_view, suffixed};
ghost use Rattle.c_type_bounds.specs.Counts.{capped};
ghost use Rattle.c_type_bounds.specs.Weights.{declarator_weight, declarators_weight, initial_weight, initializer_weight, initializers_weight, is_name_expression as named, operation_view, prefix_weight, size_weight, weight_if_any, weight_of, weight_of_all};

use crate::count::plus;
use c_tree::{
    BinaryOperator, Brackets, Core, Declarator, Expression, Initializer, PrefixOperator, Suffix,
};

/// What an operator before its operand weighs.
fn prefix_weight(operator: PrefixOperator) -> u64
    ensures { result ≡ prefix_weight operator }
{
    match operator {
        PrefixOperator::Increment | PrefixOperator::Decrement => 2,
        PrefixOperator::AddressOf
        | PrefixOperator::Indirection
        | PrefixOperator::Plus
        | PrefixOperator::Minus
        | PrefixOperator::Complement
        | PrefixOperator::Not => 1,
    }
}

/// Whether an expression is a name, perhaps in parentheses.
fn is_name(e: &Expression) -> bool
    ensures { result ≡ named (expression_view e.now) }
{
    matches!(e.core(), Core::Name(_))
}

/// What an expression weighs.
#[cycle(weight)]
pub fn weight(e: &Expression) -> u64
    ensures { result ≡ capped (weight_of (expression_view e.now)) }
{
    match e {
        Expression::Name(_)
        | Expression::Constant { .. }
        | Expression::Literal { .. }
        | Expression::SizeofExpression { .. }
        | Expression::SizeofType { .. } => 1,
        Expression::Parenthesized { inner, .. } => weight(inner),
        Expression::Postfix { operand, suffixes } => {
            suffixes_weight(weight(operand), is_name(operand), suffixes)
        }
        Expression::Prefix {
            operator,
            operand,
            ..
        } => plus(prefix_weight(*operator), weight(operand)),
        Expression::Cast { operand, .. } => plus(1, weight(operand)),
        Expression::Binary { first, operations } => operations_weight(weight(first), operations),
        Expression::Conditional {
            condition,
            then,
            otherwise,
        } => plus(
            plus(plus(1, weight(condition)), weight(then)),
            weight(otherwise),
        ),
        Expression::Assignment { target, value, .. } => {
            plus(plus(1, weight(target)), weight(value))
        }
        Expression::Comma { first, rest } => commas_weight(weight(first), rest),
    }
}

/// What an operand of a weight weighs with operators behind it.
#[cycle(weight)]
fn operations_weight(operand: u64, operations: &[(BinaryOperator, Expression)]) -> u64
    ensures { (e : ExpressionTree) → operand ≡ capped (weight_of e)
        → result ≡ capped (weight_of (fold operation e (map operation_view operations.now))) }
{
    let mut total = operand;
    for (_, right) in operations {
        total = plus(plus(1, total), weight(right));
    }
    total
}

/// What an operand of a weight weighs with commas behind it.
#[cycle(weight)]
fn commas_weight(operand: u64, rest: &[Expression]) -> u64
    ensures { (e : ExpressionTree) → operand ≡ capped (weight_of e)
        → result ≡ capped (weight_of (fold Comma e (map expression_view rest.now))) }
{
    let mut total = operand;
    for e in rest {
        total = plus(plus(1, total), weight(e));
    }
    total
}

/// What an operand with suffixes behind it weighs: the operand has a weight, and may be a name.
#[cycle(weight)]
fn suffixes_weight(operand: u64, is_name: bool, suffixes: &[Suffix]) -> u64
    ensures { (e : ExpressionTree) → operand ≡ capped (weight_of e) → is_name ≡ named e
        → result ≡ capped (weight_of (fold suffixed e (map suffix_view suffixes.now))) }
{
    let mut total = operand;
    let mut is_named = is_name;
    for suffix in suffixes {
        total = suffix_weight(total, is_named, suffix);
        is_named = false;
    }
    total
}

/// What an operand with a suffix behind it weighs.
#[cycle(weight)]
fn suffix_weight(operand: u64, is_name: bool, suffix: &Suffix) -> u64
    ensures { (e : ExpressionTree) → operand ≡ capped (weight_of e) → is_name ≡ named e
        → result ≡ capped (weight_of (suffixed e (suffix_view suffix.now))) }
{
    match suffix {
        Suffix::Index { index, .. } => plus(plus(1, operand), weight(index)),
        Suffix::Call { arguments, .. } => {
            if is_name {
                plus(1, weight_of_all(arguments))
            } else {
                plus(plus(1, operand), weight_of_all(arguments))
            }
        }
        Suffix::Increment { .. } | Suffix::Decrement { .. } => plus(2, operand),
    }
}

/// What arguments weigh.
#[cycle(weight)]
fn weight_of_all(all: &[Expression]) -> u64
    ensures { result ≡ capped (weight_of_all (chain_of_arguments (map expression_view all.now))) }
{
    let mut total = 0;
    for e in all {
        total = plus(total, weight(e));
    }
    total
}

/// What an expression weighs that may be absent.
pub fn weight_if_any(e: &Option<Expression>) -> u64
    ensures { result ≡ capped (weight_if_any (option_map expression_view e.now)) }
{
    match e {
        Some(e) => weight(e),
        None => 0,
    }
}

/// What a size in brackets weighs.
pub fn size_weight(brackets: &Brackets) -> u64
    ensures { result ≡ capped (size_weight (brackets_view brackets.now)) }
{
    match brackets {
        Brackets::Sized(e) => weight(e),
        Brackets::Absent | Brackets::Empty => 0,
    }
}

/// What an initializer weighs.
#[cycle(initializer_weight)]
fn initializer_weight(initializer: &Initializer) -> u64
    ensures { result ≡ capped (initializer_weight (initializer_view initializer.now)) }
{
    match initializer {
        Initializer::Expression(e) => weight(e),
        Initializer::List(all) => plus(1, initializers_weight(all)),
    }
}

/// What initializers weigh.
#[cycle(initializer_weight)]
fn initializers_weight(all: &[Initializer]) -> u64
    ensures { result ≡ capped (initializers_weight (initializer_chain (map initializer_view all.now))) }
{
    let mut total = 0;
    for one in all {
        total = plus(total, initializer_weight(one));
    }
    total
}

/// What an initializer weighs that may be absent.
fn initial_weight(initializer: &Option<Initializer>) -> u64
    ensures { result ≡ capped (initial_weight (option_map initializer_view initializer.now)) }
{
    match initializer {
        Some(initializer) => initializer_weight(initializer),
        None => 0,
    }
}

/// What a declarator weighs.
fn declarator_weight(declarator: &Declarator) -> u64
    ensures { result ≡ capped (declarator_weight (declarator_view declarator.now)) }
{
    plus(
        plus(2, size_weight(&declarator.brackets)),
        initial_weight(&declarator.initializer),
    )
}

/// What declarators weigh.
pub fn declarators_weight(all: &[Declarator]) -> u64
    ensures { result ≡ capped (declarators_weight (map declarator_view all.now)) }
{
    let mut total = 0;
    for one in all {
        total = plus(total, declarator_weight(one));
    }
    total
}
