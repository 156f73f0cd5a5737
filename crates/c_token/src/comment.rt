//! Comments and other white space within a line.

ghost use Rattle.std.specs.Prelude.{◌≡◌, ◌≤◌, ◌<◌, ◌+◌, length, drop, IfOk, IfSome};
ghost use Rattle.c_token.specs.Blanks.{blank_at, blanks_end, block_comment, line_comment};

use crate::bytes::{byte_at, is_blank, is_replaced, stands};
use crate::fault::Fault;
use debug_records::Code;

/// Where the comment from two slashes ends, read from an offset on.
fn line_comment(text: &[u8], from: usize) -> Result<usize, Fault>
    requires { from ≤ length text.now }
    ensures exact { result ≡ line_comment text.now from (drop from text.now) }
    ensures within { IfOk result (λ end. (from ≤ end) × (end ≤ length text.now)) }
{
    let mut at = from;
    while at < text.len() {
        if text[at] == b'\n' {
            return Ok(at);
        }
        if is_replaced(text, at) {
            return Err(Fault {
                code: Code::UNKNOWN_BYTE,
                at,
            });
        }
        at += 1;
    }
    Ok(at)
}

/// Where the comment that begins at `start` with a slash and a star ends, read from an offset on.
fn block_comment(text: &[u8], start: usize, from: usize) -> Result<usize, Fault>
    requires { from ≤ length text.now }
    ensures exact { result ≡ block_comment text.now start from (drop from text.now) }
    ensures within { IfOk result (λ end. (from ≤ end) × (end ≤ length text.now)) }
{
    let mut at = from;
    while at < text.len() {
        if stands(text, at, b"*/") {
            return Ok(at + 2);
        }
        if is_replaced(text, at) {
            return Err(Fault {
                code: Code::UNKNOWN_BYTE,
                at,
            });
        }
        at += 1;
    }
    Err(Fault {
        code: Code::UNENDED_COMMENT,
        at: start,
    })
}

/// Where the blank byte or the comment at an offset ends, if one stands there.
#[tactic(auto, unfolding(crate::specs::Blanks::blank_at))]
pub fn blank_at(text: &[u8], at: usize) -> Result<Option<usize>, Fault>
    requires { at < length text.now }
    ensures exact { result ≡ blank_at text.now at }
    ensures within { IfOk result (λ blank. IfSome blank (λ end. (at < end) × (end ≤ length text.now))) }
{
    if is_blank(byte_at(text, at)) {
        return Ok(Some(at + 1));
    }
    if stands(text, at, b"//") {
        return Ok(Some(line_comment(text, at + 2)?));
    }
    if stands(text, at, b"/*") {
        return Ok(Some(block_comment(text, at, at + 2)?));
    }
    Ok(None)
}

/// Where the blank bytes and comments from an offset on end.
#[tactic(auto, unfolding(crate::specs::Blanks::blanks_end))]
pub fn blanks_end(text: &[u8], from: usize) -> Result<usize, Fault>
    requires { from ≤ length text.now }
    ensures exact { result ≡ blanks_end text.now from }
    ensures within { IfOk result (λ end. (from ≤ end) × (end ≤ length text.now)) }
{
    let mut at = from;
    while at < text.len() {
        match blank_at(text, at)? {
            Some(end) => at = end,
            None => return Ok(at),
        }
    }
    Ok(at)
}
