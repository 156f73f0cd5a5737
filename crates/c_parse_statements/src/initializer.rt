//! Initializers (ISO/IEC 9899:2011, 6.7.9).

ghost use Rattle.std.specs.Prelude.{◌≡◌, ◌<◌, length, map, IfOk};
ghost use Rattle.c_token.specs.Lexemes.{lexemes};
ghost use Rattle.c_tree.specs.Declarations.{initializer_view};
ghost use Rattle.c_parse_tokens.specs.Outcome.{Gives};
ghost use Rattle.c_parse_statements.specs.Declarations.{nested_initializer, in_braces, within_braces, initializer};

use c_parse_expressions::{assignment, node, push};
use c_parse_tokens::{Mark, ParseErr, begins_expression, behind, given, is_at, refusal, want};
use c_token::Token;
use c_tree::Initializer;
use std::alloc::Global;

/// An initializer within braces, where the nesting allows one more.
#[cycle(initializer)]
#[tactic(auto, unfolding(crate::specs::Declarations::nested_initializer, crate::specs::Declarations::within_braces, crate::specs::Declarations::initializer))]
fn nested_initializer(
    alloc: Global,
    depth: u32,
    tokens: &[Token],
) -> Result<(Box<Initializer>, &[Token]), ParseErr>
    ensures reads { Gives (λ x. (initializer_view x.0.value, lexemes x.1.now)) result
        (nested_initializer (within_braces depth) (lexemes tokens.now)) }
    ensures shorter { IfOk result (λ x. length x.1.now < length tokens.now) }
{
    if depth == 0 {
        let is_taken = is_at(Mark::OpenBrace, tokens) || begins_expression(tokens);
        return Err(ParseErr::Stuck(refusal(is_taken, tokens)));
    }
    initializer(alloc, depth - 1, tokens)
}

/// The initializers in braces, up to the closing brace, before which a comma may stand.
#[cycle(initializer)]
#[tactic(auto, unfolding(crate::specs::Declarations::in_braces))]
fn in_braces(
    alloc: Global,
    depth: u32,
    tokens: &[Token],
) -> Result<(Vec<Initializer>, &[Token]), ParseErr>
    ensures reads { Gives (λ x. (map initializer_view x.0.items, lexemes x.1.now)) result
        (in_braces (within_braces depth) (lexemes tokens.now)) }
    ensures shorter { IfOk result (λ x. length x.1.now < length tokens.now) }
{
    let mut initializers = Vec::new(alloc);
    let (first, mut rest) = nested_initializer(alloc, depth, tokens)?;
    push(&mut initializers, first)?;
    while let Some(after) = behind(Mark::Comma, rest) {
        if is_at(Mark::CloseBrace, after) {
            return Ok((initializers, after));
        }
        let (next, behind) = nested_initializer(alloc, depth, after)?;
        push(&mut initializers, next)?;
        rest = behind;
    }
    Ok((initializers, rest))
}

/// An expression, or initializers in braces.
#[cycle(initializer)]
#[tactic(auto, unfolding(crate::specs::Declarations::initializer, crate::specs::Declarations::initializer_in))]
pub fn initializer(
    alloc: Global,
    depth: u32,
    tokens: &[Token],
) -> Result<(Box<Initializer>, &[Token]), ParseErr>
    ensures reads { Gives (λ x. (initializer_view x.0.value, lexemes x.1.now)) result
        (initializer depth (lexemes tokens.now)) }
    ensures shorter { IfOk result (λ x. length x.1.now < length tokens.now) }
{
    let Some(inside) = behind(Mark::OpenBrace, tokens) else {
        let (value, rest) = given!(assignment(alloc, depth, tokens));
        let value = Initializer::Expression(Box::into_inner(value));
        return Ok((given!(node(alloc, value)), rest));
    };
    let (initializers, rest) = given!(in_braces(alloc, depth, inside));
    let rest = given!(want(Mark::CloseBrace, rest));
    Ok((given!(node(alloc, Initializer::List(initializers))), rest))
}
