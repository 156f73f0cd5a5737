//! Parts of statements that hold no statement (ISO/IEC 9899:2011, 6.8).

ghost use Rattle.std.specs.Prelude.{◌≡◌, ◌+◌, ◌<◌, ◌≤◌, List, [], length, map, Ok, IfOk, IfSome};
ghost use Rattle.std.specs.Option.{option_map};
ghost use Rattle.c_token.specs.Lexemes.{Lexeme, word_view, lexemes};
ghost use Rattle.c_tree.specs.Expressions.{expression_view};
ghost use Rattle.c_tree.specs.Statements.{StatementTree, Empty, start_view, label_view, statement_view};
ghost use Rattle.c_parse_tokens.specs.Outcome.{Gives};
ghost use Rattle.c_parse_expressions.specs.Expressions.{nesting};
ghost use Rattle.c_parse_statements.specs.Headers.{header_view};
ghost use Rattle.c_parse_statements.specs.Clauses.{is_statement_word, begins_statement, condition, optional, start_of, for_start, for_header, begins_header, expression_statement, return_statement, break_statement, continue_statement, label, labels};

use crate::declaration;
use c_parse_expressions::{Sort, comma, conditional, nested, node, push};
use c_parse_tokens::{
    Mark, ParseErr, begins_expression, begins_type, behind, extent_before, given, is_at,
    last_before, want,
};
use c_token::{Keyword, Kind, Punctuator, Token};
use c_tree::{Expression, ForStart, Label, Statement};
use debug_records::Spot;
use std::alloc::Global;

/// The token begins a statement and no expression.
fn is_statement_word(kind: &Kind) -> bool
    ensures { result ≡ is_statement_word (word_view kind.now) }
{
    match kind {
        Kind::Keyword(word) => matches!(
            word,
            Keyword::If
                | Keyword::While
                | Keyword::Do
                | Keyword::For
                | Keyword::Switch
                | Keyword::Case
                | Keyword::Default
                | Keyword::Break
                | Keyword::Continue
                | Keyword::Return
        ),
        Kind::Punctuator(punctuator) => {
            matches!(punctuator, Punctuator::Semicolon | Punctuator::OpenBrace)
        }
        _ => false,
    }
}

/// The first token begins a statement.
#[tactic(auto, unfolding(crate::specs::Clauses::begins_statement))]
pub fn begins_statement(tokens: &[Token]) -> bool
    ensures { result ≡ begins_statement (lexemes tokens.now) }
{
    match tokens {
        [] => false,
        [first, ..] => is_statement_word(&first.kind) || begins_expression(tokens),
    }
}

/// An expression in parentheses, as behind `if`.
#[tactic(auto, unfolding(crate::specs::Clauses::condition))]
pub fn condition(
    alloc: Global,
    depth: u32,
    tokens: &[Token],
) -> Result<(Box<Expression>, &[Token]), ParseErr>
    ensures reads { Gives (λ x.
        (expression_view x.0.value, lexemes x.1.now)) result (condition (nesting depth) (lexemes tokens.now)) }
    ensures shorter { IfOk result (λ x. length x.1.now < length tokens.now) }
{
    let rest = given!(want(Mark::OpenParenthesis, tokens));
    let (condition, rest) = given!(nested(alloc, depth, Sort::Comma, rest));
    let rest = given!(want(Mark::CloseParenthesis, rest));
    Ok((condition, rest))
}

/// An expression, if the mark that ends it does not stand at the front.
#[tactic(auto, unfolding(crate::specs::Clauses::optional))]
fn optional(
    alloc: Global,
    depth: u32,
    end: Mark,
    tokens: &[Token],
) -> Result<(Option<Box<Expression>>, &[Token]), ParseErr>
    ensures reads { Gives (λ x. (option_map (λ e. expression_view e.value) x.0, lexemes x.1.now)) result
        (optional (nesting depth) end (lexemes tokens.now)) }
    ensures not_longer { IfOk result (λ x. length x.1.now ≤ length tokens.now) }
{
    if is_at(end, tokens) {
        return Ok((None, tokens));
    }
    let (value, rest) = given!(comma(alloc, depth, tokens));
    Ok((Some(value), rest))
}

/// The expression that a box holds, if there is one.
pub fn held(value: Option<Box<Expression>>) -> Option<Expression>
    ensures { option_map expression_view result ≡ option_map (λ e. expression_view e.value) value }
{
    match value {
        None => None,
        Some(value) => Some(Box::into_inner(value)),
    }
}

/// The first part of a `for`, up to behind its semicolon.
#[tactic(auto, unfolding(crate::specs::Clauses::for_start))]
fn for_start(
    alloc: Global,
    depth: u32,
    tokens: &[Token],
) -> Result<(Box<ForStart>, &[Token]), ParseErr>
    ensures reads { Gives (λ x. (start_view x.0.value, lexemes x.1.now)) result (for_start depth (lexemes tokens.now)) }
    ensures shorter { IfOk result (λ x. length x.1.now < length tokens.now) }
{
    if begins_type(tokens) {
        let (start, rest) = given!(declaration(alloc, depth, tokens));
        return Ok((given!(node(alloc, ForStart::Declaration(start))), rest));
    }
    let (start, rest) = given!(optional(alloc, depth, Mark::Semicolon, tokens));
    let rest = given!(want(Mark::Semicolon, rest));
    Ok((given!(node(alloc, started(start))), rest))
}

/// The first part of a `for` that is no declaration.
fn started(start: Option<Box<Expression>>) -> ForStart
    ensures { start_view result ≡ start_of (option_map (λ e. expression_view e.value) start) }
{
    match start {
        None => ForStart::Nothing,
        Some(value) => ForStart::Expression(Box::into_inner(value)),
    }
}

/// What stands between the parentheses of a `for`.
#[derive(Drop)]
pub struct ForHeader {
    pub start: Box<ForStart>,
    pub condition: Option<Box<Expression>>,
    pub step: Option<Box<Expression>>,
}

/// The three parts of a `for`, up to its closing parenthesis.
#[tactic(auto, unfolding(crate::specs::Clauses::for_header))]
pub fn for_header(
    alloc: Global,
    depth: u32,
    tokens: &[Token],
) -> Result<(ForHeader, &[Token]), ParseErr>
    ensures reads { Gives (λ x. (header_view x.0, lexemes x.1.now)) result (for_header depth (lexemes tokens.now)) }
    ensures shorter { IfOk result (λ x. length x.1.now < length tokens.now) }
{
    let (start, rest) = given!(for_start(alloc, depth, tokens));
    let (condition, rest) = given!(optional(alloc, depth, Mark::Semicolon, rest));
    let rest = given!(want(Mark::Semicolon, rest));
    let (step, rest) = given!(optional(alloc, depth, Mark::CloseParenthesis, rest));
    let header = ForHeader {
        start,
        condition,
        step,
    };
    Ok((header, rest))
}

/// The first token begins the first part of a `for`.
#[tactic(auto, unfolding(crate::specs::Clauses::begins_header))]
pub fn begins_header(tokens: &[Token]) -> bool
    ensures { result ≡ begins_header (lexemes tokens.now) }
{
    is_at(Mark::Semicolon, tokens) || begins_type(tokens) || begins_expression(tokens)
}

/// An expression and its semicolon.
#[tactic(auto, unfolding(crate::specs::Clauses::expression_statement))]
pub fn expression_statement(
    alloc: Global,
    depth: u32,
    tokens: &[Token],
) -> Result<(Box<Statement>, &[Token]), ParseErr>
    ensures reads { Gives (λ x. (statement_view x.0.value, lexemes x.1.now)) result
        (expression_statement (nesting depth) (lexemes tokens.now)) }
    ensures shorter { IfOk result (λ x. length x.1.now < length tokens.now) }
{
    let (value, rest) = given!(comma(alloc, depth, tokens));
    let rest = given!(want(Mark::Semicolon, rest));
    let statement = Statement::Expression {
        value: Box::into_inner(value),
        last: last_before(tokens, rest),
    };
    Ok((given!(node(alloc, statement)), rest))
}

/// A `return`, from its word on.
#[tactic(auto, unfolding(crate::specs::Clauses::return_statement))]
pub fn return_statement<'t>(
    alloc: Global,
    depth: u32,
    tokens: &'t [Token],
    rest: &'t [Token],
) -> Result<(Box<Statement>, &'t [Token]), ParseErr>
    requires { length rest.now < length tokens.now }
    ensures reads { Gives (λ x. (statement_view x.0.value, lexemes x.1.now)) result
        (return_statement (nesting depth) (lexemes tokens.now) (lexemes rest.now)) }
    ensures shorter { IfOk result (λ x. length x.1.now < length rest.now) }
{
    let (value, rest) = given!(optional(alloc, depth, Mark::Semicolon, rest));
    let rest = given!(want(Mark::Semicolon, rest));
    let statement = Statement::Return {
        extent: extent_before(tokens, rest),
        value: held(value),
    };
    Ok((given!(node(alloc, statement)), rest))
}

/// A statement that does nothing, whose semicolon has been read.
pub fn empty(
    alloc: Global,
    spot: Spot,
    rest: &[Token],
) -> Result<(Box<Statement>, &[Token]), ParseErr>
    ensures reads { Gives {Y = StatementTree × List Lexeme} (λ x.
        (statement_view x.0.value, lexemes x.1.now)) result (Ok (Empty spot, lexemes rest.now)) }
    ensures not_longer { IfOk result (λ x. length x.1.now ≤ length rest.now) }
{
    Ok((given!(node(alloc, Statement::Empty(spot))), rest))
}

/// A `break`, from its word on.
pub fn break_statement<'t>(
    alloc: Global,
    tokens: &'t [Token],
    rest: &'t [Token],
) -> Result<(Box<Statement>, &'t [Token]), ParseErr>
    requires { length rest.now < length tokens.now }
    ensures reads { Gives (λ x. (statement_view x.0.value, lexemes x.1.now)) result
        (break_statement (lexemes tokens.now) (lexemes rest.now)) }
    ensures shorter { IfOk result (λ x. length x.1.now < length rest.now) }
{
    let rest = given!(want(Mark::Semicolon, rest));
    let statement = Statement::Break(extent_before(tokens, rest));
    Ok((given!(node(alloc, statement)), rest))
}

/// A `continue`, from its word on.
pub fn continue_statement<'t>(
    alloc: Global,
    tokens: &'t [Token],
    rest: &'t [Token],
) -> Result<(Box<Statement>, &'t [Token]), ParseErr>
    requires { length rest.now < length tokens.now }
    ensures reads { Gives (λ x. (statement_view x.0.value, lexemes x.1.now)) result
        (continue_statement (lexemes tokens.now) (lexemes rest.now)) }
    ensures shorter { IfOk result (λ x. length x.1.now < length rest.now) }
{
    let rest = given!(want(Mark::Semicolon, rest));
    let statement = Statement::Continue(extent_before(tokens, rest));
    Ok((given!(node(alloc, statement)), rest))
}

/// A label, if one stands at the front.
#[tactic(auto, unfolding(crate::specs::Clauses::label))]
fn label(
    alloc: Global,
    depth: u32,
    tokens: &[Token],
) -> Result<Option<(Box<Label>, &[Token])>, ParseErr>
    ensures reads { Gives (λ x. option_map (λ l. (label_view l.0.value, lexemes l.1.now)) x) result
        (label (nesting depth) (lexemes tokens.now)) }
    ensures shorter { IfOk result (λ x. IfSome x (λ l. length l.1.now < length tokens.now)) }
{
    match tokens {
        [
            Token {
                kind: Kind::Keyword(Keyword::Case),
                ..
            },
            rest @ ..,
        ] => {
            let (value, behind_value) = given!(conditional(alloc, depth, rest));
            let rest = given!(want(Mark::Colon, behind_value));
            let label = Label::Case {
                extent: extent_before(tokens, rest),
                value: Box::into_inner(value),
            };
            Ok(Some((given!(node(alloc, label)), rest)))
        }
        [
            Token {
                kind: Kind::Keyword(Keyword::Default),
                ..
            },
            rest @ ..,
        ] => {
            let rest = given!(want(Mark::Colon, rest));
            let label = Label::Default(extent_before(tokens, rest));
            Ok(Some((given!(node(alloc, label)), rest)))
        }
        _ => Ok(None),
    }
}

/// The labels at the front.
pub fn labels(
    alloc: Global,
    depth: u32,
    tokens: &[Token],
) -> Result<(Vec<Label>, &[Token]), ParseErr>
    ensures reads { Gives (λ x. (map label_view x.0.items, lexemes x.1.now)) result
        (labels (length (lexemes tokens.now) + 1) (nesting depth) [] (lexemes tokens.now)) }
    ensures not_longer { IfOk result (λ x. length x.1.now ≤ length tokens.now) }
{
    let mut labels = Vec::new(alloc);
    let mut rest = tokens;
    while let Some((next, behind)) = label(alloc, depth, rest)? {
        push(&mut labels, next)?;
        rest = behind;
    }
    Ok((labels, rest))
}
