//! Declarations of objects (ISO/IEC 9899:2011, 6.7).

ghost use Rattle.std.specs.Prelude.{◌≡◌, ◌<◌, ◌≤◌, [], ◌∷◌, length, map, IfOk};
ghost use Rattle.std.specs.Option.{option_map};
ghost use Rattle.c_token.specs.Lexemes.{lexemes};
ghost use Rattle.c_tree.specs.Expressions.{identifier_view};
ghost use Rattle.c_tree.specs.Declarations.{brackets_view, initializer_view, declarator_view, declaration_view};
ghost use Rattle.c_parse_tokens.specs.Outcome.{Gives};
ghost use Rattle.c_parse_tokens.specs.Front.{separated};
ghost use Rattle.c_parse_expressions.specs.Expressions.{nesting};
ghost use Rattle.c_parse_statements.specs.Declarations.{identifier, brackets, initialized, named_declarator, declarator, begun_declaration, declaration};

use crate::initializer::initializer;
use c_parse_expressions::{Sort, nested, node, push};
use c_parse_tokens::{
    Mark, ParseErr, Place, behind, extent_before, given, specifiers, stars, stuck, want,
};
use c_token::{Kind, Token};
use c_tree::{Brackets, Declaration, Declarator, Identifier, Initializer, IntegerType};
use std::alloc::Global;

/// The name at the front.
#[tactic(auto, unfolding(crate::specs::Declarations::identifier))]
pub fn identifier(alloc: Global, tokens: &[Token]) -> Result<(Identifier, &[Token]), ParseErr>
    ensures reads { Gives (λ x. (identifier_view x.0, lexemes x.1.now)) result (identifier (lexemes tokens.now)) }
    ensures shorter { IfOk result (λ x. length x.1.now < length tokens.now) }
{
    let [
        Token {
            kind: Kind::Name(name),
            spot,
        },
        rest @ ..,
    ] = tokens
    else {
        return Err(ParseErr::Stuck(stuck(tokens)));
    };
    let name = name.clone()?;
    Ok((Identifier { name, spot: *spot }, rest))
}

/// Brackets behind a name, with or without a size, if they stand at the front.
#[tactic(auto, unfolding(crate::specs::Declarations::brackets))]
pub fn brackets(
    alloc: Global,
    depth: u32,
    tokens: &[Token],
) -> Result<(Box<Brackets>, &[Token]), ParseErr>
    ensures reads { Gives (λ x. (brackets_view x.0.value, lexemes x.1.now)) result
        (brackets (nesting depth) (lexemes tokens.now)) }
    ensures not_longer { IfOk result (λ x. length x.1.now ≤ length tokens.now) }
{
    let Some(inside) = behind(Mark::OpenBracket, tokens) else {
        return Ok((given!(node(alloc, Brackets::Absent)), tokens));
    };
    if let Some(rest) = behind(Mark::CloseBracket, inside) {
        return Ok((given!(node(alloc, Brackets::Empty)), rest));
    }
    let (size, rest) = given!(nested(alloc, depth, Sort::Assignment, inside));
    let rest = given!(want(Mark::CloseBracket, rest));
    let sized = Brackets::Sized(Box::into_inner(size));
    Ok((given!(node(alloc, sized)), rest))
}

/// The initializer behind `=`, if one stands at the front. Behind empty brackets one has to stand.
#[tactic(auto, unfolding(crate::specs::Declarations::initialized))]
fn initialized<'t>(
    alloc: Global,
    depth: u32,
    brackets: &Brackets,
    tokens: &'t [Token],
) -> Result<(Option<Box<Initializer>>, &'t [Token]), ParseErr>
    ensures reads { Gives (λ x. (option_map (λ i. initializer_view i.value) x.0, lexemes x.1.now)) result
        (initialized depth (brackets_view brackets.now) (lexemes tokens.now)) }
    ensures not_longer { IfOk result (λ x. length x.1.now ≤ length tokens.now) }
{
    let Some(rest) = behind(Mark::Equal, tokens) else {
        if matches!(brackets, Brackets::Empty) {
            return Err(ParseErr::Stuck(stuck(tokens)));
        }
        return Ok((None, tokens));
    };
    let (initializer, rest) = given!(initializer(alloc, depth, rest));
    Ok((Some(initializer), rest))
}

/// The initializer that a box holds, if there is one.
fn held(initializer: Option<Box<Initializer>>) -> Option<Initializer>
    ensures { option_map initializer_view result ≡ option_map (λ i. initializer_view i.value) initializer }
{
    match initializer {
        None => None,
        Some(initializer) => Some(Box::into_inner(initializer)),
    }
}

/// The declarator of an object, whose name has been read.
#[tactic(auto, unfolding(crate::specs::Declarations::named_declarator))]
pub fn named_declarator<'t>(
    alloc: Global,
    depth: u32,
    start: &[Token],
    stars: usize,
    identifier: Identifier,
    tokens: &'t [Token],
) -> Result<(Box<Declarator>, &'t [Token]), ParseErr>
    requires { length tokens.now < length start.now }
    ensures reads { Gives (λ x. (declarator_view x.0.value, lexemes x.1.now)) result
        (named_declarator depth (lexemes start.now) stars (identifier_view identifier) (lexemes tokens.now)) }
    ensures not_longer { IfOk result (λ x. length x.1.now ≤ length tokens.now) }
{
    let (brackets, rest) = given!(brackets(alloc, depth, tokens));
    let (initializer, rest) = given!(initialized(alloc, depth, &brackets, rest));
    let declarator = Declarator {
        extent: extent_before(start, rest),
        stars,
        identifier,
        brackets: Box::into_inner(brackets),
        initializer: held(initializer),
    };
    Ok((given!(node(alloc, declarator)), rest))
}

/// The declarator of an object.
#[tactic(auto, unfolding(crate::specs::Declarations::declarator))]
fn declarator(
    alloc: Global,
    depth: u32,
    tokens: &[Token],
) -> Result<(Box<Declarator>, &[Token]), ParseErr>
    ensures reads { Gives (λ x. (declarator_view x.0.value, lexemes x.1.now)) result
        (declarator depth (lexemes tokens.now)) }
    ensures shorter { IfOk result (λ x. length x.1.now < length tokens.now) }
{
    let (stars, rest) = stars(tokens);
    let (identifier, rest) = given!(identifier(alloc, rest));
    named_declarator(alloc, depth, tokens, stars, identifier, rest)
}

/// The declarators of a declaration, the first of which has been read.
fn declarators(
    alloc: Global,
    depth: u32,
    first: Box<Declarator>,
    tokens: &[Token],
) -> Result<(Vec<Declarator>, &[Token]), ParseErr>
    ensures reads { Gives (λ x. (map declarator_view x.0.items, lexemes x.1.now)) result
        (separated (length (lexemes tokens.now)) (declarator depth) (declarator_view first.value ∷ [])
        (lexemes tokens.now)) }
    ensures not_longer { IfOk result (λ x. length x.1.now ≤ length tokens.now) }
{
    let mut declarators = Vec::new(alloc);
    push(&mut declarators, first)?;
    let mut rest = tokens;
    while let Some(after) = behind(Mark::Comma, rest) {
        let (next, behind) = declarator(alloc, depth, after)?;
        push(&mut declarators, next)?;
        rest = behind;
    }
    Ok((declarators, rest))
}

/// A declaration, whose first declarator has been read.
#[tactic(auto, unfolding(crate::specs::Declarations::begun_declaration))]
pub fn begun_declaration<'t>(
    alloc: Global,
    depth: u32,
    start: &[Token],
    integer_type: IntegerType,
    first: Box<Declarator>,
    tokens: &'t [Token],
) -> Result<(Declaration, &'t [Token]), ParseErr>
    requires { length tokens.now < length start.now }
    ensures reads { Gives (λ x. (declaration_view x.0, lexemes x.1.now)) result
        (begun_declaration depth (lexemes start.now) integer_type (declarator_view first.value)
        (lexemes tokens.now)) }
    ensures shorter { IfOk result (λ x. length x.1.now < length tokens.now) }
{
    let (declarators, rest) = given!(declarators(alloc, depth, first, tokens));
    let rest = given!(want(Mark::Semicolon, rest));
    let declaration = Declaration {
        extent: extent_before(start, rest),
        integer_type,
        declarators,
    };
    Ok((declaration, rest))
}

/// A declaration of objects in a block.
#[tactic(auto, unfolding(crate::specs::Declarations::declaration))]
pub fn declaration(
    alloc: Global,
    depth: u32,
    tokens: &[Token],
) -> Result<(Declaration, &[Token]), ParseErr>
    ensures reads { Gives (λ x. (declaration_view x.0, lexemes x.1.now)) result (declaration depth (lexemes tokens.now)) }
    ensures shorter { IfOk result (λ x. length x.1.now < length tokens.now) }
{
    let (found, rest) = given!(specifiers(Place::Object, tokens));
    let (first, rest) = given!(declarator(alloc, depth, rest));
    begun_declaration(alloc, depth, tokens, found.integer_type(), first, rest)
}
