//! Statements (ISO/IEC 9899:2011, 6.8).

ghost use Rattle.std.specs.Prelude.{◌≡◌, ◌<◌, ◌≤◌, List, length, map, Ok, IfOk};
ghost use Rattle.std.specs.Option.{option_map};
ghost use Rattle.c_token.specs.Lexemes.{Lexeme, lexemes};
ghost use Rattle.c_tree.specs.Statements.{StatementTree, if_tree, else_tree, statement_view, block_view, branch_view};
ghost use Rattle.c_parse_tokens.specs.Outcome.{Gives};
ghost use Rattle.c_parse_tokens.specs.Front.{inside};
ghost use Rattle.c_parse_expressions.specs.Expressions.{nesting};
ghost use Rattle.c_parse_statements.specs.Statements.{nested_statement, statement_in, unlabeled, block, branch, if_statement, while_statement, do_statement, for_statement, switch_statement, statements};

use crate::{
    begins_header, begins_statement, break_statement, condition, continue_statement, declaration,
    empty, expression_statement, for_header, held, labels, return_statement,
};
use c_parse_expressions::{node, push};
use c_parse_tokens::{
    Mark, ParseErr, begins_type, behind, extent_before, given, is_at, one_less, refusal, spot_at,
    stuck, want,
};
use c_token::{Keyword, Kind, Punctuator, Token};
use c_tree::{Block, Branch, Statement};
use debug_records::Spot;
use std::alloc::Global;

/// The nesting that is left for statements inside a construct whose first token may be taken.
#[tactic(auto, using(crate::proofs::Levels::statements_inside))]
fn deeper(depth: u32, is_taken: bool, tokens: &[Token]) -> Result<u32, ParseErr>
    ensures less { IfOk result (λ less. less < depth) }
    ensures statements { Gives statements result (inside (statements depth) is_taken (lexemes tokens.now)) }
{
    one_less(depth, is_taken, tokens)
}

/// A statement within another, or in a block where declarations may stand too, where the nesting allows one more.
#[cycle(statement)]
#[tactic(auto, unfolding(crate::specs::Statements::nested_statement, crate::specs::Statements::statements))]
fn nested_statement(
    alloc: Global,
    depth: u32,
    may_declare: bool,
    tokens: &[Token],
) -> Result<(Box<Statement>, &[Token]), ParseErr>
    ensures reads { Gives (λ x. (statement_view x.0.value, lexemes x.1.now)) result
        (nested_statement (statements depth) may_declare (lexemes tokens.now)) }
    ensures shorter { IfOk result (λ x. length x.1.now < length tokens.now) }
{
    let declares = may_declare && begins_type(tokens);
    if depth == 0 {
        return Err(ParseErr::Stuck(refusal(declares || begins_statement(tokens), tokens)));
    }
    if declares {
        let (declaration, rest) = given!(declaration(alloc, depth - 1, tokens));
        let statement = Statement::Declaration(declaration);
        return Ok((given!(node(alloc, statement)), rest));
    }
    statement(alloc, depth - 1, tokens)
}

/// A statement with its labels.
#[cycle(statement)]
#[tactic(auto, unfolding(crate::specs::Statements::statement_in))]
fn statement(
    alloc: Global,
    depth: u32,
    tokens: &[Token],
) -> Result<(Box<Statement>, &[Token]), ParseErr>
    ensures reads { Gives (λ x. (statement_view x.0.value, lexemes x.1.now)) result
        (statement_in depth (statements depth) (lexemes tokens.now)) }
    ensures shorter { IfOk result (λ x. length x.1.now < length tokens.now) }
{
    let (labels, rest) = given!(labels(alloc, depth, tokens));
    let (statement, rest) = given!(unlabeled(alloc, depth, rest));
    if labels.is_empty() {
        return Ok((statement, rest));
    }
    let labeled = Statement::Labeled { labels, statement };
    Ok((given!(node(alloc, labeled)), rest))
}

/// A statement without labels.
#[cycle(statement)]
#[tactic(auto, unfolding(crate::specs::Statements::unlabeled))]
fn unlabeled(
    alloc: Global,
    depth: u32,
    tokens: &[Token],
) -> Result<(Box<Statement>, &[Token]), ParseErr>
    ensures reads { Gives (λ x. (statement_view x.0.value, lexemes x.1.now)) result
        (unlabeled depth (statements depth) (lexemes tokens.now)) }
    ensures shorter { IfOk result (λ x. length x.1.now < length tokens.now) }
{
    let [first, rest @ ..] = tokens else {
        return Err(ParseErr::Stuck(stuck(tokens)));
    };
    match &first.kind {
        Kind::Punctuator(Punctuator::Semicolon) => empty(alloc, first.spot, rest),
        Kind::Punctuator(Punctuator::OpenBrace) => {
            let (block, rest) = given!(block(alloc, depth, true, tokens));
            Ok((given!(node(alloc, Statement::Block(block))), rest))
        }
        Kind::Keyword(keyword) => match keyword {
            Keyword::If => if_statement(alloc, depth, tokens),
            Keyword::While => while_statement(alloc, depth, first.spot, rest),
            Keyword::Do => do_statement(alloc, depth, tokens, rest),
            Keyword::For => for_statement(alloc, depth, first.spot, rest),
            Keyword::Switch => switch_statement(alloc, depth, first.spot, rest),
            Keyword::Break => break_statement(alloc, tokens, rest),
            Keyword::Continue => continue_statement(alloc, tokens, rest),
            Keyword::Return => return_statement(alloc, depth, tokens, rest),
            _ => expression_statement(alloc, depth, tokens),
        },
        _ => expression_statement(alloc, depth, tokens),
    }
}

/// Statements in braces, from the opening brace on.
#[cycle(statement)]
#[tactic(auto, unfolding(crate::specs::Statements::block))]
pub fn block(
    alloc: Global,
    depth: u32,
    may_declare: bool,
    tokens: &[Token],
) -> Result<(Block, &[Token]), ParseErr>
    ensures reads { Gives (λ x. (block_view x.0, lexemes x.1.now)) result
        (block (statements depth) may_declare (lexemes tokens.now)) }
    ensures shorter { IfOk result (λ x. length x.1.now < length tokens.now) }
{
    let mut rest = want(Mark::OpenBrace, tokens)?;
    let mut statements = Vec::new(alloc);
    loop {
        if let Some(behind) = behind(Mark::CloseBrace, rest) {
            let block = Block {
                opening: spot_at(tokens),
                statements,
                closing: spot_at(rest),
            };
            return Ok((block, behind));
        }
        let (next, behind) = nested_statement(alloc, depth, may_declare, rest)?;
        push(&mut statements, next)?;
        rest = behind;
    }
}

/// `if`, its condition and what stands behind it.
#[cycle(statement)]
#[tactic(auto, unfolding(crate::specs::Statements::branch))]
fn branch(alloc: Global, depth: u32, tokens: &[Token]) -> Result<(Box<Branch>, &[Token]), ParseErr>
    ensures reads { Gives (λ x. (branch_view x.0.value, lexemes x.1.now)) result
        (branch (nesting depth) (statements depth) (lexemes tokens.now)) }
    ensures shorter { IfOk result (λ x. length x.1.now < length tokens.now) }
{
    let rest = given!(want(Mark::If, tokens));
    let (condition, rest) = given!(condition(alloc, depth, rest));
    let (then, rest) = given!(nested_statement(alloc, depth, false, rest));
    let branch = Branch {
        spot: spot_at(tokens),
        condition: Box::into_inner(condition),
        then: Box::into_inner(then),
    };
    Ok((given!(node(alloc, branch)), rest))
}

/// An `if`, the `else if`s behind it, and the last `else`.
#[tactic(auto, using(crate::proofs::ElseChains::chosen_view))]
fn chosen(
    alloc: Global,
    first: Box<Branch>,
    others: Vec<Branch>,
    otherwise: Option<Box<Statement>>,
    rest: &[Token],
) -> Result<(Box<Statement>, &[Token]), ParseErr>
    ensures reads { Gives {Y = StatementTree × List Lexeme} (λ x. (statement_view x.0.value, lexemes x.1.now)) result
        (Ok (
          if_tree (branch_view first.value)
              (else_tree (map branch_view others.items) (option_map (λ o. statement_view o.value) otherwise)),
          lexemes
              rest.now,
        )) }
    ensures not_longer { IfOk result (λ x. length x.1.now ≤ length rest.now) }
{
    let statement = Statement::If {
        first,
        others,
        otherwise,
    };
    Ok((given!(node(alloc, statement)), rest))
}

/// `if`, each `else if` behind it, which nests no deeper, and the last `else`.
#[cycle(statement)]
#[tactic(auto, unfolding(crate::specs::Statements::if_statement))]
fn if_statement(
    alloc: Global,
    depth: u32,
    tokens: &[Token],
) -> Result<(Box<Statement>, &[Token]), ParseErr>
    ensures reads { Gives (λ x. (statement_view x.0.value, lexemes x.1.now)) result
        (if_statement (nesting depth) (statements depth) (lexemes tokens.now)) }
    ensures shorter { IfOk result (λ x. length x.1.now < length tokens.now) }
{
    let (first, mut rest) = branch(alloc, depth, tokens)?;
    let mut others = Vec::new(alloc);
    while let Some(after) = behind(Mark::Else, rest) {
        if !is_at(Mark::If, after) {
            let (last, rest) = nested_statement(alloc, depth, false, after)?;
            return chosen(alloc, first, others, Some(last), rest);
        }
        let (next, behind) = branch(alloc, depth, after)?;
        push(&mut others, next)?;
        rest = behind;
    }
    chosen(alloc, first, others, None, rest)
}

/// The condition and the body of a `while`, behind its word.
#[cycle(statement)]
#[tactic(auto, unfolding(crate::specs::Statements::while_statement))]
fn while_statement(
    alloc: Global,
    depth: u32,
    spot: Spot,
    tokens: &[Token],
) -> Result<(Box<Statement>, &[Token]), ParseErr>
    ensures reads { Gives (λ x. (statement_view x.0.value, lexemes x.1.now)) result
        (while_statement (nesting depth) (statements depth) spot (lexemes tokens.now)) }
    ensures shorter { IfOk result (λ x. length x.1.now < length tokens.now) }
{
    let (condition, rest) = given!(condition(alloc, depth, tokens));
    let (body, rest) = given!(nested_statement(alloc, depth, false, rest));
    let statement = Statement::While {
        spot,
        condition: Box::into_inner(condition),
        body,
    };
    Ok((given!(node(alloc, statement)), rest))
}

/// A `do`, from its word on.
#[cycle(statement)]
#[tactic(auto, unfolding(crate::specs::Statements::do_statement))]
fn do_statement<'t>(
    alloc: Global,
    depth: u32,
    tokens: &'t [Token],
    rest: &'t [Token],
) -> Result<(Box<Statement>, &'t [Token]), ParseErr>
    requires { length rest.now < length tokens.now }
    ensures reads { Gives (λ x. (statement_view x.0.value, lexemes x.1.now)) result
        (do_statement (nesting depth) (statements depth) (lexemes tokens.now) (lexemes rest.now)) }
    ensures shorter { IfOk result (λ x. length x.1.now < length rest.now) }
{
    let (body, rest) = given!(nested_statement(alloc, depth, false, rest));
    let rest = given!(want(Mark::While, rest));
    let (condition, rest) = given!(condition(alloc, depth, rest));
    let rest = given!(want(Mark::Semicolon, rest));
    let statement = Statement::DoWhile {
        extent: extent_before(tokens, rest),
        body,
        condition: Box::into_inner(condition),
    };
    Ok((given!(node(alloc, statement)), rest))
}

/// The parts and the body of a `for`, behind its word.
#[cycle(statement)]
#[tactic(auto, unfolding(crate::specs::Statements::for_statement))]
fn for_statement(
    alloc: Global,
    depth: u32,
    spot: Spot,
    tokens: &[Token],
) -> Result<(Box<Statement>, &[Token]), ParseErr>
    ensures reads { Gives (λ x. (statement_view x.0.value, lexemes x.1.now)) result
        (for_statement depth (statements depth) spot (lexemes tokens.now)) }
    ensures shorter { IfOk result (λ x. length x.1.now < length tokens.now) }
{
    let rest = given!(want(Mark::OpenParenthesis, tokens));
    let inside = given!(one_less(depth, begins_header(rest), rest));
    let (header, rest) = given!(for_header(alloc, inside, rest));
    let rest = given!(want(Mark::CloseParenthesis, rest));
    let (body, rest) = given!(nested_statement(alloc, depth, false, rest));
    let statement = Statement::For {
        spot,
        start: Box::into_inner(header.start),
        condition: held(header.condition),
        step: held(header.step),
        body,
    };
    Ok((given!(node(alloc, statement)), rest))
}

/// The value and the block of a `switch`, behind its word.
#[cycle(statement)]
#[tactic(auto, unfolding(crate::specs::Statements::switch_statement))]
fn switch_statement(
    alloc: Global,
    depth: u32,
    spot: Spot,
    tokens: &[Token],
) -> Result<(Box<Statement>, &[Token]), ParseErr>
    ensures reads { Gives (λ x. (statement_view x.0.value, lexemes x.1.now)) result
        (switch_statement (nesting depth) (statements depth) spot (lexemes tokens.now)) }
    ensures shorter { IfOk result (λ x. length x.1.now < length tokens.now) }
{
    let (value, rest) = given!(condition(alloc, depth, tokens));
    let inside = given!(deeper(depth, is_at(Mark::OpenBrace, rest), rest));
    let (body, rest) = given!(block(alloc, inside, false, rest));
    let statement = Statement::Switch {
        spot,
        value: Box::into_inner(value),
        body,
    };
    Ok((given!(node(alloc, statement)), rest))
}
