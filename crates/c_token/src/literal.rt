//! Character constants and string literals (6.4.4.4, 6.4.5).

ghost use Rattle.std.specs.Prelude.{◌≡◌, ◌≤◌, ◌<◌, length, IfOk};
ghost use Rattle.c_token.specs.Literals.{character_at, literal_at, unit_at};
ghost use Rattle.c_token.specs.Reading.{GivesItem};

use crate::bytes::is_replaced;
use crate::escape::escape_at;
use crate::fault::{Fault, TokenErr};
use crate::token::Constant;
use debug_records::Code;
use std::alloc::Global;

/// The byte that is spelled at an offset of the literal from `start` on, and where its spelling ends.
#[tactic(auto, unfolding(crate::specs::Literals::unit_at))]
fn unit_at(text: &[u8], start: usize, at: usize) -> Result<(u8, usize), Fault>
    requires { at < length text.now }
    ensures exact { result ≡ unit_at text.now start at }
    ensures within { IfOk result (λ x. (at < x.1) × (x.1 ≤ length text.now)) }
{
    if text[at] == b'\n' {
        return Err(Fault {
            code: Code::MALFORMED_LITERAL,
            at: start,
        });
    }
    if is_replaced(text, at) {
        return Err(Fault {
            code: Code::UNKNOWN_BYTE,
            at,
        });
    }
    if text[at] != b'\\' {
        return Ok((text[at], at + 1));
    }
    if is_replaced(text, at + 1) {
        return Err(Fault {
            code: Code::UNKNOWN_BYTE,
            at: at + 1,
        });
    }
    match escape_at(text, at + 1) {
        Ok(unit) => Ok(unit),
        Err(code) => Err(Fault { code, at: start }),
    }
}

/// The bytes of the literal whose first quote stands at `start`, and where it ends.
#[tactic(auto, unfolding(crate::specs::Literals::literal_at))]
pub fn literal_at(alloc: Global, text: &[u8], start: usize) -> Result<(Vec<u8>, usize), TokenErr>
    requires { start < length text.now }
    ensures exact { GivesItem (λ x. (x.0.items, x.1)) result (literal_at text.now start) }
    ensures within { IfOk result (λ x. (start < x.1) × (x.1 ≤ length text.now)) }
{
    let quote = text[start];
    let mut bytes = Vec::new(alloc);
    let mut at = start + 1;
    while at < text.len() {
        if text[at] == quote {
            return Ok((bytes, at + 1));
        }
        let (byte, end) = unit_at(text, start, at)?;
        bytes.push(byte)?;
        at = end;
    }
    Err(TokenErr::Broken(Fault {
        code: Code::MALFORMED_LITERAL,
        at: start,
    }))
}

/// The character constant at an offset, and where it ends.
#[tactic(auto, unfolding(crate::specs::Literals::character_at))]
pub fn character_at(alloc: Global, text: &[u8], at: usize) -> Result<(Constant, usize), TokenErr>
    requires { at < length text.now }
    ensures exact { GivesItem (λ x. x) result (character_at text.now at) }
    ensures within { IfOk result (λ x. (at < x.1) × (x.1 ≤ length text.now)) }
{
    let (bytes, end) = literal_at(alloc, text, at)?;
    if bytes.len() != 1 {
        return Err(TokenErr::Broken(Fault {
            code: Code::MALFORMED_LITERAL,
            at,
        }));
    }
    let constant = Constant {
        value: bytes[0] as u32,
        is_unsigned: false,
        is_long: false,
    };
    Ok((constant, end))
}
