//! The tokens of a text.

ghost use Rattle.std.specs.Prelude.{◌≡◌, ◌≤◌, ◌<◌, ◌+◌, ◌-◌, ◌==◌, ◌^◌, length, count_by, IfOk, IfErr};
ghost use Rattle.c_token.specs.Includes.{context_at_start};
ghost use Rattle.c_token.specs.Items.{context_behind, item_at, item_view};
ghost use Rattle.c_token.specs.Lexemes.{lexemes};
ghost use Rattle.c_token.specs.Spells.{IsRefusal, Spells};
ghost use Rattle.debug_records.specs.Refusals.{Answers};
ghost use Rattle.c_token.specs.Texts.{line_of, with_line, tokens_of};

use crate::context::Context;
use crate::fault::TokenErr;
use crate::item::{Item, item_at};
use crate::token::{Kind, Token};
use debug_records::{Code, SourceErr, Spot};
use std::alloc::Global;

/// How many bytes a text may have.
const TEXT_LIMIT: usize = 1_048_576;

/// How many line feeds there are.
fn line_feeds(bytes: &[u8]) -> usize
    ensures count { result ≡ count_by (λ b. b == 10) bytes.now }
    ensures within { result ≤ length bytes.now }
{
    bytes.iter().filter(|byte| **byte == b'\n').count()
}

/// The line of an offset, counted from 1.
fn line_of(text: &[u8], at: usize) -> u32
    requires { length text.now ≤ 1048576 }
    ensures { result ≡ line_of text.now at }
{
    let before = at.min(text.len());
    1 + line_feeds(&text[..before]) as u32
}

/// What stands at an offset, and where it ends.
fn located_item(
    alloc: Global,
    context: Context,
    text: &[u8],
    at: usize,
) -> Result<(Item, usize), SourceErr>
    requires inside { at < length text.now }
    requires small { length text.now ≤ 1048576 }
    ensures exact { Answers (λ x. (item_view x.0, x.1)) result (with_line text.now (item_at context text.now at)) }
    ensures within { IfOk result (λ x. (at < x.1) × (x.1 ≤ length text.now)) }
{
    match item_at(alloc, context, text, at) {
        Ok(item) => Ok(item),
        Err(TokenErr::Broken(fault)) => Err(SourceErr::Refused(
            fault.code,
            line_of(text, fault.at),
        )),
        Err(TokenErr::NoMemory) => Err(SourceErr::NoMemory),
    }
}

/// The context behind what stands at a byte.
fn behind(context: Context, item: &Item) -> Context
    requires { context.depth < 2 ^ 32 - 1 }
    ensures exact { result ≡ context_behind context (item_view item.now) }
    ensures within { result.depth ≤ context.depth + 1 }
{
    match item {
        Item::LineFeed => context.behind_line_feed(),
        Item::Blank => context,
        Item::Token(kind) => context.behind_token(kind),
    }
}

/// The tokens that a text of C spells (ISO/IEC 9899:2011, 6.4), each with the offset and the line of its first byte.
///
/// Refused at the first fault in the order of the bytes: E01 to E06 and L09, and before all L01.
pub fn tokens(alloc: Global, text: &[u8]) -> Result<Vec<Token>, SourceErr>
    ensures exact { Answers (λ v. lexemes v.items) result (tokens_of text.now) }
    ensures spells { IfOk result (λ v. Spells text.now (lexemes v.items)) }
    ensures few { IfOk result (λ v. length v.items ≤ length text.now) }
    ensures refused { IfErr result (IsRefusal text.now) }
{
    if text.len() > TEXT_LIMIT {
        return Err(SourceErr::Refused(Code::TEXT_SIZE, 1));
    }
    let mut tokens = Vec::new(alloc);
    let mut context = Context::start();
    let mut at = 0;
    let mut line: u32 = 1;
    while at < text.len() {
        let (item, end) = located_item(alloc, context, text, at)?;
        context = behind(context, &item);
        if let Item::Token(kind) = item {
            let spot = Spot {
                at: at as u32,
                line,
            };
            tokens.push(Token { kind, spot })?;
        }
        line += line_feeds(&text[at..end]) as u32;
        at = end;
    }
    Ok(tokens)
}
