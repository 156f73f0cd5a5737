//! Lines that include a header (6.10.2).

ghost use Rattle.std.specs.Prelude.{◌≡◌, ◌≤◌, ◌<◌, ◌+◌, length, IfOk, IfSome, IsTrue};
ghost use Rattle.c_token.specs.Includes.{header_at, include_at, is_include_at, is_line_end};

use crate::bytes::{byte_at, is_word_byte, stands};
use crate::comment::blanks_end;
use crate::context::Context;
use crate::fault::Fault;
use crate::token::Header;
use debug_records::Code;

/// The header whose name stands at an offset, and where it ends.
#[tactic(auto, unfolding(crate::specs::Includes::header_at))]
fn header_at(text: &[u8], at: usize) -> Option<(Header, usize)>
    requires { at ≤ length text.now }
    ensures header { result ≡ header_at text.now at }
    ensures within { IfSome result (λ x. (at < x.1) × (x.1 ≤ length text.now)) }
{
    if stands(text, at, b"<stdio.h>") {
        Some((Header::Stdio, at + 9))
    } else if stands(text, at, b"<stdlib.h>") {
        Some((Header::Stdlib, at + 10))
    } else {
        None
    }
}

/// The word `include` stands at an offset.
#[tactic(auto, unfolding(crate::specs::Includes::is_include_at))]
fn is_include_at(text: &[u8], at: usize) -> bool
    requires { at ≤ length text.now }
    ensures include { result ≡ is_include_at text.now at }
    ensures within { IsTrue result → at + 7 ≤ length text.now }
{
    stands(text, at, b"include") && !is_word_byte(byte_at(text, at + 7))
}

/// A line ends at the offset.
#[tactic(auto, unfolding(crate::specs::Includes::is_line_end))]
fn is_line_end(text: &[u8], at: usize) -> bool
    requires { at ≤ length text.now }
    ensures { result ≡ is_line_end text.now at }
{
    at == text.len() || text[at] == b'\n'
}

/// The header that the line from a `#` on includes, and where the line ends.
#[tactic(auto, unfolding(crate::specs::Includes::include_at))]
pub fn include_at(context: Context, text: &[u8], start: usize) -> Result<(Header, usize), Fault>
    requires { start < length text.now }
    ensures exact { result ≡ include_at context text.now start }
    ensures within { IfOk result (λ x. (start < x.1) × (x.1 ≤ length text.now)) }
{
    let refused = Fault {
        code: Code::UNKNOWN_DIRECTIVE,
        at: start,
    };
    let word = blanks_end(text, start + 1)?;
    if !is_include_at(text, word) {
        return Err(refused);
    }
    let name = blanks_end(text, word + 7)?;
    let Some((header, behind)) = header_at(text, name) else {
        return Err(refused);
    };
    let end = blanks_end(text, behind)?;
    if !is_line_end(text, end) || context.is_inside() {
        return Err(refused);
    }
    Ok((header, end))
}
