//! What stands at file scope (ISO/IEC 9899:2011, 6.9).

ghost use Rattle.std.specs.Prelude.{◌≡◌, ◌<◌, ◌≤◌, length, map, IfOk};
ghost use Rattle.std.specs.Option.{option_map};
ghost use Rattle.c_token.specs.Lexemes.{lexemes};
ghost use Rattle.c_tree.specs.Expressions.{identifier_view};
ghost use Rattle.c_tree.specs.Declarations.{parameter_view};
ghost use Rattle.c_tree.specs.Statements.{block_view};
ghost use Rattle.c_tree.specs.Trees.{function_view, item_view};
ghost use Rattle.c_parse_tokens.specs.Outcome.{Gives};
ghost use Rattle.c_parse.specs.Reading.{parameter_name, parameter, parameters, are_named, body, function, result_stars, objects, external, header, item, items};

use c_parse_expressions::{node, push};
use c_parse_statements::{begun_declaration, block, brackets, identifier, named_declarator};
use c_parse_tokens::{
    Mark, ParseErr, Place, SpecifierList, behind, extent_before, given, is_at, last_before,
    specifiers, spot_at, stars, stuck, want,
};
use c_token::{Kind, Token};
use c_tree::{Block, Brackets, Extent, Function, Header, Identifier, Item, Parameter};
use std::alloc::Global;

/// The name of a parameter, if one stands at the front.
#[tactic(auto, unfolding(crate::specs::Reading::parameter_name))]
fn parameter_name(
    alloc: Global,
    tokens: &[Token],
) -> Result<(Option<Identifier>, &[Token]), ParseErr>
    ensures reads { Gives (λ x. (option_map identifier_view x.0, lexemes x.1.now)) result
        (parameter_name (lexemes tokens.now)) }
    ensures not_longer { IfOk result (λ x. length x.1.now ≤ length tokens.now) }
{
    match tokens {
        [
            Token {
                kind: Kind::Name(_),
                ..
            },
            ..
        ] => {
            let (identifier, rest) = given!(identifier(alloc, tokens));
            Ok((Some(identifier), rest))
        }
        _ => Ok((None, tokens)),
    }
}

/// A parameter.
#[tactic(auto, unfolding(crate::specs::Reading::parameter))]
fn parameter(
    alloc: Global,
    depth: u32,
    tokens: &[Token],
) -> Result<(Box<Parameter>, &[Token]), ParseErr>
    ensures reads { Gives (λ x. (parameter_view x.0.value, lexemes x.1.now)) result
        (parameter depth (lexemes tokens.now)) }
    ensures shorter { IfOk result (λ x. length x.1.now < length tokens.now) }
{
    let (found, start) = given!(specifiers(Place::Object, tokens));
    let (stars, rest) = stars(start);
    let (identifier, rest) = given!(parameter_name(alloc, rest));
    let (brackets, rest) = given!(brackets(alloc, depth, rest));
    let parameter = Parameter {
        extent: Extent {
            first: spot_at(start),
            last: last_before(tokens, rest),
        },
        integer_type: found.integer_type(),
        stars,
        identifier,
        brackets: Box::into_inner(brackets),
    };
    Ok((given!(node(alloc, parameter)), rest))
}

/// The parameters of a function, up to the closing parenthesis. `(void)` and `()` have none.
#[tactic(auto, unfolding(crate::specs::Reading::parameters))]
fn parameters(
    alloc: Global,
    depth: u32,
    tokens: &[Token],
) -> Result<(Vec<Parameter>, &[Token]), ParseErr>
    ensures reads { Gives (λ x. (map parameter_view x.0.items, lexemes x.1.now)) result
        (parameters depth (lexemes tokens.now)) }
    ensures not_longer { IfOk result (λ x. length x.1.now ≤ length tokens.now) }
{
    let mut parameters = Vec::new(alloc);
    if is_at(Mark::CloseParenthesis, tokens) {
        return Ok((parameters, tokens));
    }
    if let Some(rest) = behind(Mark::Void, tokens) {
        return Ok((parameters, rest));
    }
    let (first, mut rest) = parameter(alloc, depth, tokens)?;
    push(&mut parameters, first)?;
    while let Some(after) = behind(Mark::Comma, rest) {
        let (next, behind) = parameter(alloc, depth, after)?;
        push(&mut parameters, next)?;
        rest = behind;
    }
    Ok((parameters, rest))
}

/// Each parameter has a name.
fn are_named(parameters: &[Parameter]) -> bool
    ensures { result ≡ are_named (map parameter_view parameters.now) }
{
    let mut rest = parameters;
    while let [first, behind @ ..] = rest {
        if first.identifier.is_none() {
            return false;
        }
        rest = behind;
    }
    true
}

/// The body of a function whose parameters all have names, or the semicolon of one that is only declared.
#[tactic(auto, unfolding(crate::specs::Reading::body))]
fn body<'t>(
    alloc: Global,
    depth: u32,
    parameters: &[Parameter],
    tokens: &'t [Token],
) -> Result<(Option<Block>, &'t [Token]), ParseErr>
    ensures reads { Gives (λ x. (option_map block_view x.0, lexemes x.1.now)) result
        (body depth (map parameter_view parameters.now) (lexemes tokens.now)) }
    ensures shorter { IfOk result (λ x. length x.1.now < length tokens.now) }
{
    if let Some(rest) = behind(Mark::Semicolon, tokens) {
        return Ok((None, rest));
    }
    if !are_named(parameters) {
        return Err(ParseErr::Stuck(stuck(tokens)));
    }
    let (body, rest) = given!(block(alloc, depth, true, tokens));
    Ok((Some(body), rest))
}

/// A function, whose name has been read, from behind its opening parenthesis on.
#[tactic(auto, unfolding(crate::specs::Reading::function))]
fn function<'t>(
    alloc: Global,
    depth: u32,
    found: SpecifierList,
    start: &[Token],
    stars: usize,
    identifier: Identifier,
    tokens: &'t [Token],
) -> Result<(Function, &'t [Token]), ParseErr>
    requires behind { length tokens.now < length start.now }
    requires deep { 0 < depth }
    ensures reads { Gives (λ x. (function_view x.0, lexemes x.1.now)) result
        (function depth found (lexemes start.now) stars (identifier_view identifier) (lexemes tokens.now)) }
    ensures shorter { IfOk result (λ x. length x.1.now < length tokens.now) }
{
    let (parameters, rest) = given!(parameters(alloc, depth - 1, tokens));
    let rest = given!(want(Mark::CloseParenthesis, rest));
    let extent = extent_before(start, rest);
    let (body, rest) = given!(body(alloc, depth, &parameters, rest));
    let function = Function {
        extent,
        base: found.base(),
        stars,
        identifier,
        parameters,
        body,
    };
    Ok((function, rest))
}

/// How many `*` stand before a declarator's name: none behind `void`.
#[tactic(auto, unfolding(crate::specs::Reading::result_stars))]
fn result_stars(found: SpecifierList, tokens: &[Token]) -> (usize, &[Token])
    ensures reads { (result.0, lexemes result.1.now) ≡ result_stars found (lexemes tokens.now) }
    ensures not_longer { length result.1.now ≤ length tokens.now }
{
    if found.is_void {
        return (0, tokens);
    }
    stars(tokens)
}

/// A declaration of objects, whose first declarator begins at the start, behind its name. Of `void` there are none.
#[tactic(auto, unfolding(crate::specs::Reading::objects))]
fn objects<'t>(
    alloc: Global,
    depth: u32,
    found: SpecifierList,
    whole: &[Token],
    start: &[Token],
    stars: usize,
    identifier: Identifier,
    tokens: &'t [Token],
) -> Result<(Item, &'t [Token]), ParseErr>
    requires behind_start { length tokens.now < length start.now }
    requires behind_whole { length start.now ≤ length whole.now }
    ensures reads { Gives (λ x. (item_view x.0, lexemes x.1.now)) result
        (objects depth found (lexemes whole.now) (lexemes start.now) stars (identifier_view identifier)
        (lexemes tokens.now)) }
    ensures shorter { IfOk result (λ x. length x.1.now < length tokens.now) }
{
    if found.is_void {
        return Err(ParseErr::Stuck(stuck(tokens)));
    }
    let (first, rest) = given!(named_declarator(alloc, depth, start, stars, identifier, tokens));
    let (declaration, rest) = given!(begun_declaration(
        alloc,
        depth,
        whole,
        found.integer_type(),
        first,
        rest,
    ));
    Ok((Item::Declaration(declaration), rest))
}

/// A function, or a declaration of objects.
#[tactic(auto, unfolding(crate::specs::Reading::external))]
fn external(alloc: Global, depth: u32, tokens: &[Token]) -> Result<(Item, &[Token]), ParseErr>
    requires { 0 < depth }
    ensures reads { Gives (λ x. (item_view x.0, lexemes x.1.now)) result (external depth (lexemes tokens.now)) }
    ensures shorter { IfOk result (λ x. length x.1.now < length tokens.now) }
{
    let (found, start) = given!(specifiers(Place::File, tokens));
    let (stars, rest) = result_stars(found, start);
    let (identifier, rest) = given!(identifier(alloc, rest));
    match behind(Mark::OpenParenthesis, rest) {
        Some(inside) => {
            let (function, rest) = given!(function(
                alloc, depth, found, start, stars, identifier, inside
            ));
            Ok((Item::Function(function), rest))
        }
        None => objects(alloc, depth, found, tokens, start, stars, identifier, rest),
    }
}

/// The header that a token includes.
fn header(included: c_token::Header) -> Header
    ensures { result ≡ header included }
{
    match included {
        c_token::Header::Stdio => Header::Stdio,
        c_token::Header::Stdlib => Header::Stdlib,
    }
}

/// What stands at the front of a file.
#[tactic(auto, unfolding(crate::specs::Reading::item))]
fn item(alloc: Global, depth: u32, tokens: &[Token]) -> Result<(Item, &[Token]), ParseErr>
    requires { 0 < depth }
    ensures reads { Gives (λ x. (item_view x.0, lexemes x.1.now)) result (item depth (lexemes tokens.now)) }
    ensures shorter { IfOk result (λ x. length x.1.now < length tokens.now) }
{
    let [first, rest @ ..] = tokens else {
        return Err(ParseErr::Stuck(stuck(tokens)));
    };
    match &first.kind {
        Kind::Include(included) => {
            let include = Item::Include {
                spot: first.spot,
                header: header(*included),
            };
            Ok((include, rest))
        }
        _ => external(alloc, depth, tokens),
    }
}

/// The items of a file, up to the end of the tokens.
#[tactic(auto, unfolding(crate::specs::Reading::items))]
pub fn items(alloc: Global, depth: u32, tokens: &[Token]) -> Result<Vec<Item>, ParseErr>
    requires { 0 < depth }
    ensures { Gives (λ x. map item_view x.items) result (items depth (lexemes tokens.now)) }
{
    let mut items = Vec::new(alloc);
    let mut rest = tokens;
    while !rest.is_empty() {
        let (next, behind) = item(alloc, depth, rest)?;
        items.push(next)?;
        rest = behind;
    }
    Ok(items)
}
