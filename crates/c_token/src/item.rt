//! What stands at a byte between two tokens.

ghost use Rattle.std.specs.Prelude.{◌≡◌, ◌≤◌, ◌<◌, length, IfOk};
ghost use Rattle.c_token.specs.Items.{begins_constant, item_at, item_view, plain_token_at, token_at};
ghost use Rattle.c_token.specs.Lexemes.{word_view};
ghost use Rattle.c_token.specs.Reading.{GivesItem};

use crate::bytes::{byte_at, is_digit, is_letter, is_replaced};
use crate::comment::blank_at;
use crate::constant::constant_at;
use crate::context::Context;
use crate::directive::include_at;
use crate::fault::{Fault, TokenErr};
use crate::literal::{character_at, literal_at};
use crate::punctuator::punctuator_at;
use crate::token::Kind;
use crate::word::word_at;
use debug_records::Code;
use std::alloc::Global;

/// What stands at a byte.
#[derive(Drop)]
pub enum Item {
    LineFeed,
    /// A blank byte or a comment.
    Blank,
    Token(Kind),
}

/// A constant begins at the offset, right or wrong.
#[tactic(auto, unfolding(crate::specs::Items::begins_constant))]
fn begins_constant(text: &[u8], at: usize) -> bool
    requires { at < length text.now }
    ensures { result ≡ begins_constant text.now at }
{
    is_digit(text[at]) || (text[at] == b'.' && is_digit(byte_at(text, at + 1)))
}

/// The token at an offset that is no include line, and where it ends.
#[tactic(auto, unfolding(crate::specs::Items::plain_token_at))]
fn plain_token_at(alloc: Global, text: &[u8], at: usize) -> Result<(Kind, usize), TokenErr>
    requires { at < length text.now }
    ensures exact { GivesItem (λ x. (word_view x.0, x.1)) result (plain_token_at text.now at) }
    ensures within { IfOk result (λ x. (at < x.1) × (x.1 ≤ length text.now)) }
{
    if is_letter(text[at]) {
        return word_at(alloc, text, at);
    }
    if begins_constant(text, at) {
        let (constant, end) = constant_at(text, at)?;
        return Ok((Kind::Constant(constant), end));
    }
    if text[at] == b'\'' {
        let (constant, end) = character_at(alloc, text, at)?;
        return Ok((Kind::Constant(constant), end));
    }
    if text[at] == b'"' {
        let (bytes, end) = literal_at(alloc, text, at)?;
        return Ok((Kind::Literal(bytes), end));
    }
    let (punctuator, end) = punctuator_at(text, at)?;
    Ok((Kind::Punctuator(punctuator), end))
}

/// The token at an offset, and where it ends.
#[tactic(auto, unfolding(crate::specs::Items::token_at))]
fn token_at(
    alloc: Global,
    context: Context,
    text: &[u8],
    at: usize,
) -> Result<(Kind, usize), TokenErr>
    requires { at < length text.now }
    ensures exact { GivesItem (λ x. (word_view x.0, x.1)) result (token_at context text.now at) }
    ensures within { IfOk result (λ x. (at < x.1) × (x.1 ≤ length text.now)) }
{
    if is_replaced(text, at) {
        return Err(TokenErr::Broken(Fault {
            code: Code::UNKNOWN_BYTE,
            at,
        }));
    }
    if text[at] == b'#' && context.starts_line {
        let (header, end) = include_at(context, text, at)?;
        return Ok((Kind::Include(header), end));
    }
    plain_token_at(alloc, text, at)
}

/// What stands at an offset, and where it ends.
#[tactic(auto, unfolding(crate::specs::Items::item_at))]
pub fn item_at(
    alloc: Global,
    context: Context,
    text: &[u8],
    at: usize,
) -> Result<(Item, usize), TokenErr>
    requires { at < length text.now }
    ensures exact { GivesItem (λ x. (item_view x.0, x.1)) result (item_at context text.now at) }
    ensures within { IfOk result (λ x. (at < x.1) × (x.1 ≤ length text.now)) }
{
    if text[at] == b'\n' {
        return Ok((Item::LineFeed, at + 1));
    }
    if let Some(end) = blank_at(text, at)? {
        return Ok((Item::Blank, end));
    }
    let (kind, end) = token_at(alloc, context, text, at)?;
    Ok((Item::Token(kind), end))
}
