//! Expressions (ISO/IEC 9899:2011, 6.5).

ghost use Rattle.std.specs.Prelude.{◌≡◌, ◌<◌, ◌≤◌, [], fold, length, map, Ok, IfOk, IfErr, IfSome};
ghost use Rattle.std.specs.Option.{option_map};
ghost use Rattle.c_token.specs.Lexemes.{lexemes};
ghost use Rattle.c_tree.specs.Expressions.{expression_view, operation, suffix_view};
ghost use Rattle.c_parse_tokens.specs.declared.fault.ParseErr.TheVariants.{NoMemory};
ghost use Rattle.c_parse_tokens.specs.Outcome.{Gives};
ghost use Rattle.c_parse_tokens.specs.Front.{inside};
ghost use Rattle.c_parse_expressions.specs.Expressions.{nested, comma, assignment, conditional, levels, type_name, cast, operand_of, unary, prefix, sizeof_expression, sizeof_type, array_size, suffix_start, suffix_at, postfix, suffix, arguments, constant_type, literals_at_front, primary, nesting};

use crate::nodes::{node, push, push_operation};
use c_parse_tokens::{
    LEVELS, Mark, ParseErr, Place, assignment_at, begins_expression, begins_type, behind,
    extent_before, given, is_at, last_before, one_less, operator_at, prefix_operator, refusal,
    specifiers, spot_at, stars, stuck, type_behind, want,
};
use c_token::{Constant, Keyword, Kind, Punctuator, Token};
use c_tree::{
    Base, BinaryOperator, Expression, Identifier, IntegerType, PrefixOperator, Suffix, TypeName,
};
use debug_records::Spot;
use std::alloc::Global;

/// Which expressions may stand at a place: each sort holds those below it.
#[derive(Clone, Copy)]
pub enum Sort {
    /// Any expression.
    Comma,
    /// No comma outside brackets.
    Assignment,
    /// No assignment outside brackets.
    Conditional,
    /// An operand of an operator between two operands.
    Cast,
    /// No cast outside brackets.
    Unary,
}

/// The nesting that is left for expressions inside a construct whose first token may be taken.
#[tactic(auto, using(crate::proofs::Levels::expressions_inside))]
fn deeper(depth: u32, is_taken: bool, tokens: &[Token]) -> Result<u32, ParseErr>
    ensures less { IfOk result (λ less. less < depth) }
    ensures expressions { Gives nesting result (inside (nesting depth) is_taken (lexemes tokens.now)) }
{
    one_less(depth, is_taken, tokens)
}

/// An expression within another construct, where the nesting allows one more.
#[cycle(expression)]
#[tactic(auto, unfolding(crate::specs::Expressions::nested, crate::specs::Expressions::nesting))]
pub fn nested(
    alloc: Global,
    depth: u32,
    sort: Sort,
    tokens: &[Token],
) -> Result<(Box<Expression>, &[Token]), ParseErr>
    ensures reads { Gives (λ x.
        (expression_view x.0.value, lexemes x.1.now)) result (nested (nesting depth) sort (lexemes tokens.now)) }
    ensures shorter { IfOk result (λ x. length x.1.now < length tokens.now) }
{
    if depth == 0 {
        return Err(ParseErr::Stuck(refusal(begins_expression(tokens), tokens)));
    }
    match sort {
        Sort::Comma => comma(alloc, depth - 1, tokens),
        Sort::Assignment => assignment(alloc, depth - 1, tokens),
        Sort::Conditional => conditional(alloc, depth - 1, tokens),
        Sort::Cast => cast(alloc, depth - 1, tokens),
        Sort::Unary => unary(alloc, depth - 1, tokens),
    }
}

/// Expressions with commas between them.
#[cycle(expression)]
#[tactic(auto, unfolding(crate::specs::Expressions::comma))]
pub fn comma(
    alloc: Global,
    depth: u32,
    tokens: &[Token],
) -> Result<(Box<Expression>, &[Token]), ParseErr>
    ensures reads { Gives (λ x. (expression_view x.0.value, lexemes x.1.now)) result
        (comma (nesting depth) (lexemes tokens.now)) }
    ensures shorter { IfOk result (λ x. length x.1.now < length tokens.now) }
{
    let (first, mut left) = assignment(alloc, depth, tokens)?;
    let mut rest = Vec::new(alloc);
    while let Some(after) = behind(Mark::Comma, left) {
        let (next, behind) = assignment(alloc, depth, after)?;
        push(&mut rest, next)?;
        left = behind;
    }
    if rest.is_empty() {
        return Ok((first, left));
    }
    let comma = node(alloc, Expression::Comma { first, rest })?;
    Ok((comma, left))
}

/// An assignment, or a conditional expression.
#[cycle(expression)]
#[tactic(auto, unfolding(crate::specs::Expressions::assignment))]
pub fn assignment(
    alloc: Global,
    depth: u32,
    tokens: &[Token],
) -> Result<(Box<Expression>, &[Token]), ParseErr>
    ensures reads { Gives (λ x.
        (expression_view x.0.value, lexemes x.1.now)) result (assignment (nesting depth) (lexemes tokens.now)) }
    ensures shorter { IfOk result (λ x. length x.1.now < length tokens.now) }
{
    let (target, rest) = given!(conditional(alloc, depth, tokens));
    let Some((operator, after)) = assignment_at(rest) else {
        return Ok((target, rest));
    };
    let (value, rest) = given!(nested(alloc, depth, Sort::Assignment, after));
    let assignment = Expression::Assignment {
        operator,
        target,
        value,
    };
    Ok((given!(node(alloc, assignment)), rest))
}

/// A conditional expression, or operators between operands.
#[cycle(expression)]
#[tactic(auto, unfolding(crate::specs::Expressions::conditional))]
pub fn conditional(
    alloc: Global,
    depth: u32,
    tokens: &[Token],
) -> Result<(Box<Expression>, &[Token]), ParseErr>
    ensures reads { Gives (λ x.
        (expression_view x.0.value, lexemes x.1.now)) result (conditional (nesting depth) (lexemes tokens.now)) }
    ensures shorter { IfOk result (λ x. length x.1.now < length tokens.now) }
{
    let (condition, rest) = given!(levels(alloc, LEVELS, depth, tokens));
    let Some(after) = behind(Mark::Question, rest) else {
        return Ok((condition, rest));
    };
    let (then, rest) = given!(nested(alloc, depth, Sort::Comma, after));
    let rest = given!(want(Mark::Colon, rest));
    let (otherwise, rest) = given!(nested(alloc, depth, Sort::Conditional, rest));
    let conditional = Expression::Conditional {
        condition,
        then,
        otherwise,
    };
    Ok((given!(node(alloc, conditional)), rest))
}

/// An operand and the operations behind it.
fn chained(
    alloc: Global,
    first: Box<Expression>,
    operations: Vec<(BinaryOperator, Expression)>,
) -> Result<Box<Expression>, ParseErr>
    ensures chained { IfOk result (λ e.
        expression_view e.value ≡ fold operation (expression_view first.value)
        (map (λ o. (o.0, expression_view o.1)) operations.items)) }
    ensures error { IfErr result (λ e. e ≡ NoMemory) }
{
    if operations.is_empty() {
        return Ok(first);
    }
    node(alloc, Expression::Binary { first, operations })
}

/// Operators of the first levels between operands.
#[cycle(expression)]
#[tactic(auto, unfolding(crate::specs::Expressions::levels))]
fn levels(
    alloc: Global,
    level: usize,
    depth: u32,
    tokens: &[Token],
) -> Result<(Box<Expression>, &[Token]), ParseErr>
    requires { level ≤ 10 }
    ensures reads { Gives (λ x. (expression_view x.0.value, lexemes x.1.now)) result
        (levels level (cast (nesting depth)) (lexemes tokens.now)) }
    ensures shorter { IfOk result (λ x. length x.1.now < length tokens.now) }
{
    if level == 0 {
        return cast(alloc, depth, tokens);
    }
    let (first, mut rest) = levels(alloc, level - 1, depth, tokens)?;
    let mut operations = Vec::new(alloc);
    while let Some((operator, after)) = operator_at(level, rest) {
        let (right, behind) = levels(alloc, level - 1, depth, after)?;
        push_operation(&mut operations, operator, right)?;
        rest = behind;
    }
    Ok((chained(alloc, first, operations)?, rest))
}

/// The type of a cast, and the tokens behind it.
#[tactic(auto, unfolding(crate::specs::Expressions::type_name))]
fn type_name(tokens: &[Token]) -> Result<(TypeName, &[Token]), ParseErr>
    ensures reads { Gives (λ x. (x.0, lexemes x.1.now)) result (type_name (lexemes tokens.now)) }
    ensures shorter { IfOk result (λ x. length x.1.now < length tokens.now) }
{
    let (found, rest) = given!(specifiers(Place::Cast, tokens));
    let base = found.base();
    if matches!(base, Base::Void) {
        return Ok((TypeName { base, stars: 0 }, rest));
    }
    let (stars, rest) = stars(rest);
    Ok((TypeName { base, stars }, rest))
}

/// A cast, or a unary expression.
#[cycle(expression)]
#[tactic(auto, unfolding(crate::specs::Expressions::cast))]
fn cast(
    alloc: Global,
    depth: u32,
    tokens: &[Token],
) -> Result<(Box<Expression>, &[Token]), ParseErr>
    ensures reads { Gives (λ x. (expression_view x.0.value, lexemes x.1.now)) result
        (cast (nesting depth) (lexemes tokens.now)) }
    ensures shorter { IfOk result (λ x. length x.1.now < length tokens.now) }
{
    let Some(inside) = type_behind(tokens) else {
        return unary(alloc, depth, tokens);
    };
    given!(deeper(depth, true, inside));
    let (type_name, rest) = given!(type_name(inside));
    let rest = given!(want(Mark::CloseParenthesis, rest));
    let (operand, rest) = given!(nested(alloc, depth, Sort::Cast, rest));
    let cast = Expression::Cast {
        spot: spot_at(tokens),
        type_name,
        operand,
    };
    Ok((given!(node(alloc, cast)), rest))
}

/// Which operand a prefix operator takes: `++` and `--` take no cast.
fn operand_of(operator: PrefixOperator) -> Sort
    ensures { result ≡ operand_of operator }
{
    match operator {
        PrefixOperator::Increment | PrefixOperator::Decrement => Sort::Unary,
        _ => Sort::Cast,
    }
}

/// An operator before its operand, `sizeof`, or an operand with its suffixes.
#[cycle(expression)]
#[tactic(auto, unfolding(crate::specs::Expressions::unary))]
fn unary(
    alloc: Global,
    depth: u32,
    tokens: &[Token],
) -> Result<(Box<Expression>, &[Token]), ParseErr>
    ensures reads { Gives (λ x. (expression_view x.0.value, lexemes x.1.now)) result
        (unary (nesting depth) (lexemes tokens.now)) }
    ensures shorter { IfOk result (λ x. length x.1.now < length tokens.now) }
{
    match tokens {
        [
            Token {
                kind: Kind::Keyword(Keyword::Sizeof),
                spot,
            },
            rest @ ..,
        ] => match type_behind(rest) {
            Some(inside) => sizeof_type(alloc, depth, tokens, rest, inside),
            None => sizeof_expression(alloc, depth, *spot, rest),
        },
        [
            Token {
                kind: Kind::Punctuator(punctuator),
                spot,
            },
            rest @ ..,
        ] => match prefix_operator(*punctuator) {
            Some(operator) => prefix(alloc, depth, *spot, operator, rest),
            None => postfix(alloc, depth, tokens),
        },
        _ => postfix(alloc, depth, tokens),
    }
}

/// The operand of a prefix operator, behind it.
#[cycle(expression)]
#[tactic(auto, unfolding(crate::specs::Expressions::prefix))]
fn prefix(
    alloc: Global,
    depth: u32,
    spot: Spot,
    operator: PrefixOperator,
    tokens: &[Token],
) -> Result<(Box<Expression>, &[Token]), ParseErr>
    ensures reads { Gives (λ x. (expression_view x.0.value, lexemes x.1.now)) result
        (prefix (nesting depth) spot operator (lexemes tokens.now)) }
    ensures shorter { IfOk result (λ x. length x.1.now < length tokens.now) }
{
    let (operand, rest) = given!(nested(alloc, depth, operand_of(operator), tokens));
    let prefix = Expression::Prefix {
        spot,
        operator,
        operand,
    };
    Ok((given!(node(alloc, prefix)), rest))
}

/// The operand of `sizeof`, behind it.
#[cycle(expression)]
#[tactic(auto, unfolding(crate::specs::Expressions::sizeof_expression))]
fn sizeof_expression(
    alloc: Global,
    depth: u32,
    spot: Spot,
    tokens: &[Token],
) -> Result<(Box<Expression>, &[Token]), ParseErr>
    ensures reads { Gives (λ x. (expression_view x.0.value, lexemes x.1.now)) result
        (sizeof_expression (nesting depth) spot (lexemes tokens.now)) }
    ensures shorter { IfOk result (λ x. length x.1.now < length tokens.now) }
{
    let (operand, rest) = given!(nested(alloc, depth, Sort::Unary, tokens));
    let sizeof = Expression::SizeofExpression { spot, operand };
    Ok((given!(node(alloc, sizeof)), rest))
}

/// `sizeof` of a type in parentheses.
#[cycle(expression)]
#[tactic(auto, unfolding(crate::specs::Expressions::sizeof_type))]
fn sizeof_type<'t>(
    alloc: Global,
    depth: u32,
    word: &[Token],
    parenthesis: &[Token],
    inside: &'t [Token],
) -> Result<(Box<Expression>, &'t [Token]), ParseErr>
    requires { length inside.now < length word.now }
    ensures reads { Gives (λ x. (expression_view x.0.value, lexemes x.1.now)) result
        (sizeof_type (nesting depth) (lexemes word.now) (lexemes parenthesis.now) (lexemes inside.now)) }
    ensures shorter { IfOk result (λ x. length x.1.now < length inside.now) }
{
    let depth = given!(deeper(depth, true, parenthesis));
    let depth = given!(deeper(depth, begins_type(inside), inside));
    let (found, rest) = given!(specifiers(Place::Object, inside));
    let (stars, rest) = stars(rest);
    let (size, rest) = given!(size(alloc, depth, rest));
    let rest = given!(want(Mark::CloseParenthesis, rest));
    let sizeof = Expression::SizeofType {
        extent: extent_before(word, rest),
        integer_type: found.integer_type(),
        stars,
        size,
    };
    Ok((given!(node(alloc, sizeof)), rest))
}

/// A size in brackets, if brackets stand at the front.
#[cycle(expression)]
#[tactic(auto, unfolding(crate::specs::Expressions::array_size))]
fn size(
    alloc: Global,
    depth: u32,
    tokens: &[Token],
) -> Result<(Option<Box<Expression>>, &[Token]), ParseErr>
    ensures reads { Gives (λ x.
        (option_map (λ e. expression_view e.value) x.0, lexemes x.1.now)) result (array_size (nesting depth)
        (lexemes tokens.now)) }
    ensures not_longer { IfOk result (λ x. length x.1.now ≤ length tokens.now) }
{
    let Some(inside) = behind(Mark::OpenBracket, tokens) else {
        return Ok((None, tokens));
    };
    let (size, rest) = given!(nested(alloc, depth, Sort::Assignment, inside));
    let rest = given!(want(Mark::CloseBracket, rest));
    Ok((Some(size), rest))
}

/// How a suffix begins.
#[derive(Clone, Copy)]
pub enum SuffixStart {
    /// `[`
    Index,
    /// `(`
    Call,
    /// `++`
    Increment,
    /// `--`
    Decrement,
}

/// How a suffix begins whose first token is the punctuator, if one does.
#[tactic(auto, unfolding(crate::specs::Expressions::suffix_start))]
fn suffix_start(punctuator: Punctuator) -> Option<SuffixStart>
    ensures { result ≡ suffix_start punctuator }
{
    match punctuator {
        Punctuator::OpenBracket => Some(SuffixStart::Index),
        Punctuator::OpenParenthesis => Some(SuffixStart::Call),
        Punctuator::Increment => Some(SuffixStart::Increment),
        Punctuator::Decrement => Some(SuffixStart::Decrement),
        _ => None,
    }
}

/// How a suffix at the front begins, and the tokens behind its first.
#[tactic(auto, unfolding(crate::specs::Expressions::suffix_at))]
fn suffix_at(tokens: &[Token]) -> Option<(SuffixStart, &[Token])>
    ensures reads { option_map (λ x. (x.0, lexemes x.1.now)) result
        ≡ suffix_at (lexemes tokens.now) }
    ensures shorter { IfSome result (λ x. length x.1.now < length tokens.now) }
{
    let [
        Token {
            kind: Kind::Punctuator(punctuator),
            ..
        },
        rest @ ..,
    ] = tokens
    else {
        return None;
    };
    let start = suffix_start(*punctuator)?;
    Some((start, rest))
}

/// An operand with its suffixes.
#[cycle(expression)]
#[tactic(auto, unfolding(crate::specs::Expressions::postfix))]
fn postfix(
    alloc: Global,
    depth: u32,
    tokens: &[Token],
) -> Result<(Box<Expression>, &[Token]), ParseErr>
    ensures reads { Gives (λ x. (expression_view x.0.value, lexemes x.1.now)) result
        (postfix (nesting depth) (lexemes tokens.now)) }
    ensures shorter { IfOk result (λ x. length x.1.now < length tokens.now) }
{
    let (operand, mut rest) = primary(alloc, depth, tokens)?;
    let mut suffixes = Vec::new(alloc);
    while let Some((start, after)) = suffix_at(rest) {
        let (next, behind) = suffix(alloc, depth, start, rest, after)?;
        push(&mut suffixes, next)?;
        rest = behind;
    }
    if suffixes.is_empty() {
        return Ok((operand, rest));
    }
    let postfix = Expression::Postfix { operand, suffixes };
    Ok((node(alloc, postfix)?, rest))
}

/// One suffix, behind its first token.
#[cycle(expression)]
#[tactic(auto, unfolding(crate::specs::Expressions::suffix))]
fn suffix<'t>(
    alloc: Global,
    depth: u32,
    start: SuffixStart,
    whole: &[Token],
    tokens: &'t [Token],
) -> Result<(Box<Suffix>, &'t [Token]), ParseErr>
    requires { length tokens.now < length whole.now }
    ensures reads { Gives (λ x. (suffix_view x.0.value, lexemes x.1.now)) result
        (suffix (nesting depth) start (lexemes whole.now) (lexemes tokens.now)) }
    ensures not_longer { IfOk result (λ x. length x.1.now ≤ length tokens.now) }
{
    match start {
        SuffixStart::Index => {
            let (index, rest) = given!(nested(alloc, depth, Sort::Comma, tokens));
            let rest = given!(want(Mark::CloseBracket, rest));
            let last = last_before(whole, rest);
            let index = Box::into_inner(index);
            Ok((given!(node(alloc, Suffix::Index { index, last })), rest))
        }
        SuffixStart::Call => {
            let (arguments, rest) = given!(arguments(alloc, depth, tokens));
            let rest = given!(want(Mark::CloseParenthesis, rest));
            let last = last_before(whole, rest);
            Ok((given!(node(alloc, Suffix::Call { arguments, last })), rest))
        }
        SuffixStart::Increment => {
            let last = last_before(whole, tokens);
            Ok((given!(node(alloc, Suffix::Increment { last })), tokens))
        }
        SuffixStart::Decrement => {
            let last = last_before(whole, tokens);
            Ok((given!(node(alloc, Suffix::Decrement { last })), tokens))
        }
    }
}

/// The arguments of a call, up to its closing parenthesis.
#[cycle(expression)]
#[tactic(auto, unfolding(crate::specs::Expressions::arguments))]
fn arguments(
    alloc: Global,
    depth: u32,
    tokens: &[Token],
) -> Result<(Vec<Expression>, &[Token]), ParseErr>
    ensures reads { Gives (λ x.
        (map expression_view x.0.items, lexemes x.1.now)) result (arguments (nesting depth) (lexemes tokens.now)) }
    ensures not_longer { IfOk result (λ x. length x.1.now ≤ length tokens.now) }
{
    let mut arguments = Vec::new(alloc);
    if is_at(Mark::CloseParenthesis, tokens) {
        return Ok((arguments, tokens));
    }
    let (first, mut rest) = nested(alloc, depth, Sort::Assignment, tokens)?;
    push(&mut arguments, first)?;
    while let Some(after) = behind(Mark::Comma, rest) {
        let (next, behind) = nested(alloc, depth, Sort::Assignment, after)?;
        push(&mut arguments, next)?;
        rest = behind;
    }
    Ok((arguments, rest))
}

/// The type of a constant.
fn constant_type(constant: Constant) -> IntegerType
    ensures { result ≡ constant_type constant.is_long constant.is_unsigned }
{
    match (constant.is_long, constant.is_unsigned) {
        (false, false) => IntegerType::Int,
        (false, true) => IntegerType::UnsignedInt,
        (true, false) => IntegerType::Long,
        (true, true) => IntegerType::UnsignedLong,
    }
}

/// The bytes of a literal and of those at the front, joined, and the tokens behind them.
fn literals<'t>(
    alloc: Global,
    first: &[u8],
    tokens: &'t [Token],
) -> Result<(Vec<u8>, &'t [Token]), ParseErr>
    ensures reads { Gives (λ x. (x.0.items, lexemes x.1.now)) result
        (Ok (literals_at_front first.now (lexemes tokens.now))) }
    ensures not_longer { IfOk result (λ x. length x.1.now ≤ length tokens.now) }
{
    let mut bytes = Vec::new(alloc);
    bytes.extend_from_slice(first)?;
    let mut rest = tokens;
    while let [
        Token {
            kind: Kind::Literal(part),
            ..
        },
        behind @ ..,
    ] = rest
    {
        bytes.extend_from_slice(part)?;
        rest = behind;
    }
    Ok((bytes, rest))
}

/// A name, a constant, literals, or an expression in parentheses.
#[cycle(expression)]
#[tactic(auto, unfolding(crate::specs::Expressions::primary))]
fn primary(
    alloc: Global,
    depth: u32,
    tokens: &[Token],
) -> Result<(Box<Expression>, &[Token]), ParseErr>
    ensures reads { Gives (λ x. (expression_view x.0.value, lexemes x.1.now)) result
        (primary (nesting depth) (lexemes tokens.now)) }
    ensures shorter { IfOk result (λ x. length x.1.now < length tokens.now) }
{
    let [first, rest @ ..] = tokens else {
        return Err(ParseErr::Stuck(stuck(tokens)));
    };
    match &first.kind {
        Kind::Name(name) => {
            let name = name.clone()?;
            let name = Expression::Name(Identifier {
                name,
                spot: first.spot,
            });
            Ok((given!(node(alloc, name)), rest))
        }
        Kind::Constant(constant) => {
            let constant = Expression::Constant {
                spot: first.spot,
                value: constant.value,
                integer_type: constant_type(*constant),
            };
            Ok((given!(node(alloc, constant)), rest))
        }
        Kind::Literal(part) => {
            let (bytes, rest) = given!(literals(alloc, part, rest));
            let extent = extent_before(tokens, rest);
            let literal = Expression::Literal { extent, bytes };
            Ok((given!(node(alloc, literal)), rest))
        }
        Kind::Punctuator(Punctuator::OpenParenthesis) => {
            let (inner, rest) = given!(nested(alloc, depth, Sort::Comma, rest));
            let rest = given!(want(Mark::CloseParenthesis, rest));
            let extent = extent_before(tokens, rest);
            let parenthesized = Expression::Parenthesized { extent, inner };
            Ok((given!(node(alloc, parenthesized)), rest))
        }
        _ => Err(ParseErr::Stuck(stuck(tokens))),
    }
}
