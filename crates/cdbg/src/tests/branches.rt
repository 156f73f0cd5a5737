//! Branches in the code of images.

use super::number_at;
use super::sessions::{ended, shelf};
use line_form::Status;
use std::alloc::{AllocError, Global};
use std::process::Abort;
use std::test::Fail;

const IN_REGISTERS: &str = "cdbg compile --passes none --homes registers program.c image";

/// How many bytes stand before the code of an image.
const HEADER: usize = 64;

/// The lowest seven bits of a branch.
const BRANCH: u8 = 0x63;

/// The lowest seven bits of a jump.
const JUMP: u8 = 0x6f;

/// A source whose `if` leads over so many statements of one word each.
fn choice_over(alloc: Global, statements: u32) -> Result<Vec<u8>, AllocError> {
    let mut text = Vec::new(alloc);
    text.extend_from_slice(b"int main(void){unsigned x=1u;if(x==2u){")?;
    for _ in 0..statements {
        text.extend_from_slice(b"x++;")?;
    }
    text.extend_from_slice(b"}return (int)x;}")?;
    Ok(text)
}

/// The lowest seven bits of a word of an image's code, 0 behind the image's end.
fn opcode(image: &[u8], word: u32) -> u8 {
    match image.get(HEADER + 4 * (word as usize)) {
        Some(byte) => *byte & 0x7f,
        None => 0,
    }
}

/// How many of the first words of an image's code are branches with a jump behind them.
fn branches_over_jumps(image: &[u8], words: u32) -> u32 {
    let mut count = 0u32;
    for word in 1..words {
        if opcode(image, word - 1) == BRANCH && opcode(image, word) == JUMP {
            count = count.saturating_add(1);
        }
    }
    count
}

/// An `if` over so many statements has this many branches over a jump.
fn assert_branches(
    rt: &impl Abort,
    alloc: Global,
    statements: u32,
    branches: u32,
) -> Result<(), AllocError> {
    let source = choice_over(alloc, statements)?;
    let mut shelf = shelf(alloc, &source, b"".as_slice(), b"".as_slice())?;
    let ended = ended(alloc, IN_REGISTERS, &mut shelf, [].as_slice())?;
    assert!(rt; ended.status == Status::Done);
    let words = number_at(rt, &ended.image, 16);
    assert!(rt; branches_over_jumps(&ended.image, words) == branches);
    Ok(())
}

#[test]
fn a_branch_leads_alone_as_far_as_in_the_longest_layout(rt: HostRuntime) -> Result<(), Fail> {
    // A statement counts three words: its own, the one that its place may need, and the jump to the next block that was dropped.
    assert_branches(&rt, rt.alloc(), 330, 0)?;
    assert_branches(&rt, rt.alloc(), 339, 0)?;
    assert_branches(&rt, rt.alloc(), 340, 1)?;
    assert_branches(&rt, rt.alloc(), 600, 1)?;
    Ok(())
}
