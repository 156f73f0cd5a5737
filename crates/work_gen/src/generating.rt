//! The source that is generated from a seed and a size.

ghost use Rattle.std.specs.Prelude.{◌≡◌, ◌≤◌, ◌++◌, IfOk, OnOk};
ghost use Rattle.work_gen.specs.Generated.{letter, next_state, statement, statements, text};

use std::alloc::{AllocError, Global};

/// What stands before the statements that are drawn.
const HEAD: &[u8] =
    b"#include <stdio.h>\nint main(void){\nunsigned a=1u,b=2u,c=3u,d=4u;\nint i=0;\nwhile(i<2){\n";

/// What stands behind them.
const TAIL: &[u8] = b"i=i+1;\n}\nputchar(65+(int)((a+b+c+d)%26u));\nreturn 0;\n}\n";

/// The state behind this one (Lehmer 1951).
fn next(state: u32) -> u32
    ensures { result ≡ next_state state }
{
    let wide = u64::from(state) * 1_103_515_245 + 12_345;
    (wide % 4_294_967_296) as u32
}

/// The name of one of the four variables.
fn letter(number: u32) -> u8
    ensures { result ≡ letter number }
{
    b'a' + (number % 4) as u8
}

/// Appends the line of the statement that this number draws.
#[tactic(auto, unfolding(crate::specs::Generated::statement))]
fn push_statement(text: &mut Vec<u8>, drawn: u32) -> Result<(), AllocError>
    ensures { OnOk result (text.new.items ≡ text.old.items ++ statement drawn) }
{
    let target = letter(drawn);
    let left = letter(drawn / 4);
    let right = letter(drawn / 16);
    match drawn / 64 % 4 {
        0 => text.extend_from_slice(&[target, b'=', left, b';', b'\n']),
        1 => text.extend_from_slice(&[target, b'=', left, b'+', right, b';', b'\n']),
        2 => text.extend_from_slice(&[target, b'=', left, b'*', right, b';', b'\n']),
        _ => text.extend_from_slice(&[target, b'=', left, b'^', right, b';', b'\n']),
    }
}

/// Appends the lines of so many statements, drawn from this state on.
fn push_statements(text: &mut Vec<u8>, seed: u32, count: u32) -> Result<(), AllocError>
    ensures { OnOk result (text.new.items ≡ text.old.items ++ statements count seed) }
{
    let mut state = seed;
    let mut left = count;
    while left > 0 {
        left -= 1;
        state = next(state);
        push_statement(text, state / 65_536)?;
    }
    Ok(())
}

/// The program that is generated from a seed and a size: a loop that is gone through twice, with so many statements,
/// each of which assigns to one of four variables
/// another one, or a sum, a product or an exclusive or of two. `AllocError` where memory for the text was refused.
#[tactic(auto, unfolding(crate::specs::Generated::text))]
pub fn source(alloc: Global, seed: u32, size: u32) -> Result<Vec<u8>, AllocError>
    ensures { IfOk result (λ made. made.items ≡ text seed size) }
{
    let mut text = Vec::from_slice(alloc, HEAD)?;
    push_statements(&mut text, seed, size)?;
    text.extend_from_slice(TAIL)?;
    Ok(text)
}
