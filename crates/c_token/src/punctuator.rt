//! Punctuators (6.4.6).

ghost use Rattle.std.specs.Prelude.{◌≡◌, ◌≤◌, ◌<◌, ◌+◌, ◌&&◌, length, map, nat_lt, slice_index, IfOk, IfSome, IsTrue};
ghost use Rattle.std.specs.List.{list_any};
ghost use Rattle.c_token.specs.Bytes.{text_has};
ghost use Rattle.c_token.specs.Punctuators.{find_punctuator, is_digraph_at, longest_punctuator, punctuator_at};
ghost use Rattle.c_token.specs.Tables.{spelled};

use crate::bytes::{byte_at, stands};
use crate::fault::Fault;
use crate::token::Punctuator;
use debug_records::Code;

/// The punctuators, the longer ones first.
static PUNCTUATORS: [(&[u8], Punctuator); 48] = [
    (b"<<=", Punctuator::ShiftLeftEqual),
    (b">>=", Punctuator::ShiftRightEqual),
    (b"...", Punctuator::Ellipsis),
    (b"->", Punctuator::Arrow),
    (b"++", Punctuator::Increment),
    (b"--", Punctuator::Decrement),
    (b"<<", Punctuator::ShiftLeft),
    (b">>", Punctuator::ShiftRight),
    (b"<=", Punctuator::LessEqual),
    (b">=", Punctuator::GreaterEqual),
    (b"==", Punctuator::EqualEqual),
    (b"!=", Punctuator::NotEqual),
    (b"&&", Punctuator::AndAnd),
    (b"||", Punctuator::OrOr),
    (b"*=", Punctuator::StarEqual),
    (b"/=", Punctuator::SlashEqual),
    (b"%=", Punctuator::PercentEqual),
    (b"+=", Punctuator::PlusEqual),
    (b"-=", Punctuator::MinusEqual),
    (b"&=", Punctuator::AmpersandEqual),
    (b"^=", Punctuator::CaretEqual),
    (b"|=", Punctuator::BarEqual),
    (b"##", Punctuator::HashHash),
    (b"[", Punctuator::OpenBracket),
    (b"]", Punctuator::CloseBracket),
    (b"(", Punctuator::OpenParenthesis),
    (b")", Punctuator::CloseParenthesis),
    (b"{", Punctuator::OpenBrace),
    (b"}", Punctuator::CloseBrace),
    (b".", Punctuator::Dot),
    (b"&", Punctuator::Ampersand),
    (b"*", Punctuator::Star),
    (b"+", Punctuator::Plus),
    (b"-", Punctuator::Minus),
    (b"~", Punctuator::Tilde),
    (b"!", Punctuator::Exclamation),
    (b"/", Punctuator::Slash),
    (b"%", Punctuator::Percent),
    (b"<", Punctuator::Less),
    (b">", Punctuator::Greater),
    (b"^", Punctuator::Caret),
    (b"|", Punctuator::Bar),
    (b"?", Punctuator::Question),
    (b":", Punctuator::Colon),
    (b";", Punctuator::Semicolon),
    (b"=", Punctuator::Equal),
    (b",", Punctuator::Comma),
    (b"#", Punctuator::Hash),
];

static DIGRAPHS: [&[u8]; 5] = [b"<:", b":>", b"<%", b"%>", b"%:"];

/// One of the digraphs of the table stands at an offset.
fn is_listed_at(table: &[&[u8]], text: &[u8], at: usize) -> bool
    requires { at ≤ length text.now }
    ensures { result ≡ list_any (text_has text.now at) (map (λ entry. entry.now) table.now) }
{
    for entry in table {
        if stands(text, at, entry) {
            return true;
        }
    }
    false
}

#[tactic(auto, unfolding(crate::specs::Punctuators::is_digraph_at))]
fn is_digraph_at(text: &[u8], at: usize) -> bool
    requires { at ≤ length text.now }
    ensures { result ≡ is_digraph_at text.now at }
{
    is_listed_at(&DIGRAPHS, text, at)
}

/// A spelling that is not empty stands at an offset, where `first` is the byte there.
#[tactic(auto, unfolding(crate::specs::Bytes::text_has))]
fn stands_behind(first: u8, text: &[u8], at: usize, spelling: &[u8]) -> bool
    requires inside { at ≤ length text.now }
    requires first { first ≡ slice_index text.now at }
    ensures exact { result ≡ (nat_lt 0 (length spelling.now) && text_has text.now at spelling.now) }
    ensures some { IsTrue result → 0 < length spelling.now }
    ensures within { IsTrue result → at + length spelling.now ≤ length text.now }
{
    match spelling {
        [byte, ..] if *byte == first => stands(text, at, spelling),
        _ => false,
    }
}

/// The first punctuator of the table that stands at an offset, and where it ends.
fn find_punctuator(
    table: &[(&[u8], Punctuator)],
    text: &[u8],
    at: usize,
) -> Option<(Punctuator, usize)>
    requires { at ≤ length text.now }
    ensures first { result ≡ find_punctuator (spelled table.now) text.now at }
    ensures within { IfSome result (λ x. (at < x.1) × (x.1 ≤ length text.now)) }
{
    let first = byte_at(text, at);
    for entry in table {
        if stands_behind(first, text, at, entry.0) {
            return Some((entry.1, at + entry.0.len()));
        }
    }
    None
}

/// The longest punctuator at an offset, and where it ends.
#[tactic(auto, unfolding(crate::specs::Punctuators::longest_punctuator))]
fn longest_punctuator(text: &[u8], at: usize) -> Option<(Punctuator, usize)>
    requires { at ≤ length text.now }
    ensures longest { result ≡ longest_punctuator text.now at }
    ensures within { IfSome result (λ x. (at < x.1) × (x.1 ≤ length text.now)) }
{
    find_punctuator(&PUNCTUATORS, text, at)
}

/// The punctuator at an offset, and where it ends.
#[tactic(auto, unfolding(crate::specs::Punctuators::punctuator_at))]
pub fn punctuator_at(text: &[u8], at: usize) -> Result<(Punctuator, usize), Fault>
    requires { at ≤ length text.now }
    ensures exact { result ≡ punctuator_at text.now at }
    ensures within { IfOk result (λ x. (at < x.1) × (x.1 ≤ length text.now)) }
{
    if is_digraph_at(text, at) {
        return Err(Fault {
            code: Code::UNKNOWN_BYTE,
            at,
        });
    }
    match longest_punctuator(text, at) {
        Some(punctuator) => Ok(punctuator),
        None => Err(Fault {
            code: Code::UNKNOWN_BYTE,
            at,
        }),
    }
}
