//! Escape sequences (6.4.4.4).

ghost use Rattle.std.specs.Prelude.{◌≡◌, ◌≤◌, ◌<◌, length, IfOk};
ghost use Rattle.c_token.specs.Literals.{byte_of, escape_at, find_byte, hexadecimal_escape, octal_escape, simple_escape};

use crate::bytes::byte_at;
use crate::constant::{digits_len, value_in};
use debug_records::Code;

/// The byte behind a backslash, and the byte that both stand for.
static SIMPLE: [(u8, u8); 11] = [
    (b'a', 7),
    (b'b', 8),
    (b'f', 12),
    (b'n', 10),
    (b'r', 13),
    (b't', 9),
    (b'v', 11),
    (b'\\', b'\\'),
    (b'\'', b'\''),
    (b'"', b'"'),
    (b'?', b'?'),
];

/// The byte that the table gives for a byte.
fn find_byte(table: &[(u8, u8)], byte: u8) -> Option<u8>
    ensures { result ≡ find_byte table.now byte }
{
    for entry in table {
        if entry.0 == byte {
            return Some(entry.1);
        }
    }
    None
}

#[tactic(auto, unfolding(crate::specs::Literals::simple_escape))]
fn simple_escape(byte: u8) -> Option<u8>
    ensures { result ≡ simple_escape byte }
{
    find_byte(&SIMPLE, byte)
}

/// The byte whose value the digits spell.
#[tactic(auto, unfolding(crate::specs::Literals::byte_of))]
fn byte_of(base: u32, digits: &[u8]) -> Result<u8, Code>
    requires low { 1 ≤ base }
    requires high { base ≤ 16 }
    ensures { result ≡ byte_of base digits.now }
{
    match value_in(base, digits) {
        Some(value) => {
            if value > 255 {
                Err(Code::MALFORMED_CONSTANT)
            } else {
                Ok(value as u8)
            }
        }
        None => Err(Code::MALFORMED_CONSTANT),
    }
}

/// The byte of the octal digits at an offset, three at most, and where they end.
#[tactic(auto, unfolding(crate::specs::Literals::octal_escape))]
fn octal_escape(text: &[u8], at: usize) -> Result<(u8, usize), Code>
    requires { at ≤ length text.now }
    ensures exact { result ≡ octal_escape text.now at }
    ensures within { IfOk result (λ x. (at ≤ x.1) × (x.1 ≤ length text.now)) }
{
    let rest = &text[at..];
    let size = digits_len(8, rest).min(3);
    let byte = byte_of(8, &rest[..size])?;
    Ok((byte, at + size))
}

/// The byte of the hexadecimal digits at an offset, and where they end.
#[tactic(auto, unfolding(crate::specs::Literals::hexadecimal_escape))]
fn hexadecimal_escape(text: &[u8], at: usize) -> Result<(u8, usize), Code>
    requires { at ≤ length text.now }
    ensures exact { result ≡ hexadecimal_escape text.now at }
    ensures within { IfOk result (λ x. (at ≤ x.1) × (x.1 ≤ length text.now)) }
{
    let rest = &text[at..];
    let size = digits_len(16, rest);
    if size == 0 {
        return Err(Code::UNKNOWN_ESCAPE);
    }
    let byte = byte_of(16, &rest[..size])?;
    Ok((byte, at + size))
}

/// The byte that an escape stands for whose bytes behind the backslash begin at an offset, and where they end.
#[tactic(auto, unfolding(crate::specs::Literals::escape_at))]
pub fn escape_at(text: &[u8], at: usize) -> Result<(u8, usize), Code>
    requires { at ≤ length text.now }
    ensures exact { result ≡ escape_at text.now at }
    ensures within { IfOk result (λ x. (at ≤ x.1) × (x.1 ≤ length text.now)) }
{
    if at == text.len() {
        return Err(Code::MALFORMED_LITERAL);
    }
    if text[at] == b'x' {
        return hexadecimal_escape(text, at + 1);
    }
    if b'0' <= text[at] && text[at] <= b'7' {
        return octal_escape(text, at);
    }
    match simple_escape(text[at]) {
        Some(byte) => Ok((byte, at + 1)),
        None => Err(Code::UNKNOWN_ESCAPE),
    }
}
