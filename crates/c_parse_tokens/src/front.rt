//! What stands at the front of the tokens.

ghost use Rattle.std.specs.Prelude.{◌≡◌, ◌<◌, length, IfOk, IfSome};
ghost use Rattle.std.specs.Option.{option_map};
ghost use Rattle.c_token.specs.Lexemes.{word_view, lexemes};
ghost use Rattle.c_parse_tokens.specs.Outcome.{Gives};
ghost use Rattle.c_parse_tokens.specs.Front.{unexpected, stuck, refusal, one_less, is_at, tokens_behind, want, spot_at, last_before, extent_before};

use crate::fault::{ParseErr, Stuck};
use crate::mark::Mark;
use c_token::{Kind, Token};
use c_tree::Extent;
use debug_records::{Code, Spot};

/// The code for a token that no construct takes.
fn unexpected(kind: &Kind) -> Code
    ensures { result ≡ unexpected (word_view kind.now) }
{
    match kind {
        Kind::Keyword(_) => Code::UNEXPECTED_KEYWORD,
        _ => Code::UNEXPECTED_TOKEN,
    }
}

/// Where reading stops before the first token, which no construct takes.
pub fn stuck(tokens: &[Token]) -> Stuck
    ensures { result ≡ stuck (lexemes tokens.now) }
{
    match tokens {
        [] => Stuck::AtEnd,
        [first, ..] => Stuck::At(unexpected(&first.kind), first.spot.line),
    }
}

/// Where reading stops before the first token, which stands too deep if a construct takes it.
pub fn refusal(is_taken: bool, tokens: &[Token]) -> Stuck
    ensures { result ≡ refusal is_taken (lexemes tokens.now) }
{
    match tokens {
        [] => Stuck::AtEnd,
        [first, ..] => {
            let code = if is_taken {
                Code::NESTING
            } else {
                unexpected(&first.kind)
            };
            Stuck::At(code, first.spot.line)
        }
    }
}

/// The nesting that is left inside a construct whose first token may be taken.
pub fn one_less(depth: u32, is_taken: bool, tokens: &[Token]) -> Result<u32, ParseErr>
    ensures less { IfOk result (λ less. less < depth) }
    ensures number { Gives (λ less. less) result (one_less depth is_taken (lexemes tokens.now)) }
{
    if depth == 0 {
        return Err(ParseErr::Stuck(refusal(is_taken, tokens)));
    }
    Ok(depth - 1)
}

/// The tokens behind a mark, if it stands at the front.
#[tactic(auto, unfolding(crate::specs::Front::tokens_behind))]
pub fn behind(mark: Mark, tokens: &[Token]) -> Option<&[Token]>
    ensures reads { option_map (λ x. lexemes x.now) result ≡ tokens_behind mark (lexemes tokens.now) }
    ensures shorter { IfSome result (λ x. length x.now < length tokens.now) }
{
    let [first, rest @ ..] = tokens else {
        return None;
    };
    if mark.is(&first.kind) {
        Some(rest)
    } else {
        None
    }
}

/// A mark stands at the front.
#[tactic(auto, unfolding(crate::specs::Front::is_at))]
pub fn is_at(mark: Mark, tokens: &[Token]) -> bool
    ensures { result ≡ is_at mark (lexemes tokens.now) }
{
    match tokens {
        [] => false,
        [first, ..] => mark.is(&first.kind),
    }
}

/// The tokens behind a mark, which has to stand at the front.
#[tactic(auto, unfolding(crate::specs::Front::want))]
pub fn want(mark: Mark, tokens: &[Token]) -> Result<&[Token], ParseErr>
    ensures reads { Gives (λ x. lexemes x.now) result (want mark (lexemes tokens.now)) }
    ensures shorter { IfOk result (λ x. length x.now < length tokens.now) }
{
    let Some(rest) = behind(mark, tokens) else {
        return Err(ParseErr::Stuck(stuck(tokens)));
    };
    Ok(rest)
}

/// Where the first token stands; at the end of the tokens the beginning of the text.
pub fn spot_at(tokens: &[Token]) -> Spot
    ensures { result ≡ spot_at (lexemes tokens.now) }
{
    match tokens {
        [] => Spot { at: 0, line: 0 },
        [first, ..] => first.spot,
    }
}

/// The offset of the last token before the rest.
#[tactic(auto, unfolding(crate::specs::Front::last_before))]
pub fn last_before(tokens: &[Token], rest: &[Token]) -> u32
    requires { length rest.now < length tokens.now }
    ensures { result ≡ last_before (lexemes tokens.now) (lexemes rest.now) }
{
    let (_, last) = tokens.split_at(tokens.len() - rest.len() - 1);
    spot_at(last).at
}

/// Where the tokens before the rest stand.
#[tactic(auto, unfolding(crate::specs::Front::extent_before))]
pub fn extent_before(tokens: &[Token], rest: &[Token]) -> Extent
    requires { length rest.now < length tokens.now }
    ensures { result ≡ extent_before (lexemes tokens.now) (lexemes rest.now) }
{
    Extent {
        first: spot_at(tokens),
        last: last_before(tokens, rest),
    }
}
