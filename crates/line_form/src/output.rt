//! The output of the program, quoted in lines.

ghost use Rattle.std.specs.Prelude.{◌≡◌, ◌<◌, ◌++◌, map, IfOk, OnErr, OnOk};
ghost use Rattle.line_form.specs.Hexadecimal.{hexadecimal_digit};
ghost use Rattle.line_form.specs.Lines.{line, out_line, out_lines, quoted_byte};

use std::alloc::{AllocError, Global};

/// How many bytes of the output a line shows at most.
const LINE_BYTES: usize = 64;

/// One digit, of 0 to 9 and a to f.
fn hexadecimal_digit(digit: u8) -> u8
    requires { digit < 16 }
    ensures { result ≡ hexadecimal_digit digit }
{
    if digit < 10 {
        b'0' + digit
    } else {
        b'a' - 10 + digit
    }
}

/// Appends a byte of the output as it stands between the quotes.
#[tactic(auto, unfolding(crate::specs::Lines::quoted_byte, crate::specs::Hexadecimal::hexadecimal))]
fn push_quoted(text: &mut Vec<u8>, byte: u8) -> Result<(), AllocError>
    ensures { OnOk result (text.new.items ≡ text.old.items ++ quoted_byte byte) }
{
    match byte {
        b'"' | b'\\' => text.extend_from_slice(&[b'\\', byte]),
        b' '..=b'~' => Ok(text.push(byte)?),
        _ => {
            let high = hexadecimal_digit(byte / 16);
            let low = hexadecimal_digit(byte % 16);
            text.extend_from_slice(&[b'\\', b'x', high, low])
        }
    }
}

/// `out "TEXT"` for a piece of the output, whatever its length. `AllocError` where memory for the text was refused.
#[tactic(auto, unfolding(crate::specs::Lines::out_line))]
pub fn out_line(alloc: Global, piece: &[u8]) -> Result<Vec<u8>, AllocError>
    ensures { IfOk result (λ text. text.items ≡ out_line piece.now) }
{
    let mut text = Vec::from_slice(alloc, b"out \"")?;
    for byte in piece {
        push_quoted(&mut text, *byte)?;
    }
    text.push(b'"')?;
    Ok(text)
}

/// The texts of the lines that show this output, each at most 64 bytes of it, in order; none for no output.
/// `AllocError` where memory
/// for them was refused.
pub fn out_lines(alloc: Global, output: &[u8]) -> Result<Vec<Vec<u8>>, AllocError>
    ensures { IfOk result (λ lines. map (λ text. text.items) lines.items ≡ out_lines output.now) }
{
    let mut lines = Vec::new(alloc);
    for piece in output.chunks(LINE_BYTES) {
        lines.push(out_line(alloc, piece)?)?;
    }
    Ok(lines)
}

/// Makes a line of a text, by a line feed at its end. `AllocError`, and the text as it was, where memory was refused.
pub fn end_line(text: &mut Vec<u8>) -> Result<(), AllocError>
    ensures ended { OnOk result (text.new.items ≡ line text.old.items) }
    ensures kept { OnErr result (text.new.items ≡ text.old.items) }
{
    Ok(text.push(b'\n')?)
}
