//! Programs that weigh over 4,000, whose units are of the larger room.

use super::sessions::{Ending, ended};
use super::{number_at, session_ends, shelf};
use debug_records::Code;
use line_form::Status;
use std::alloc::{AllocError, Global};
use std::process::Abort;
use std::test::Fail;

const BY_DEFAULT: &str = "cdbg debug program.c script input image";

const BY_NONE: &str = "cdbg debug --passes none program.c script input image";

const IN_SLOTS: &str = "cdbg debug --passes none --homes slots program.c script input image";

const CONTINUE: &[u8] = b"continue\n";

/// Appends a text so many times.
fn push_times(text: &mut Vec<u8>, part: &[u8], count: u32) -> Result<(), AllocError> {
    for _ in 0..count {
        text.extend_from_slice(part)?;
    }
    Ok(())
}

/// Appends a text, a number, and a text.
fn push_numbered(
    alloc: Global,
    text: &mut Vec<u8>,
    before: &[u8],
    number: u32,
    behind: &[u8],
) -> Result<(), AllocError> {
    text.extend_from_slice(before)?;
    text.extend_from_slice(format!(in alloc; "{number}")?.as_bytes())?;
    text.extend_from_slice(behind)
}

/// Appends so many functions with a text so many times each, and a `main` that calls them in turn.
fn push_functions(
    alloc: Global,
    text: &mut Vec<u8>,
    functions: u32,
    part: &[u8],
    count: u32,
) -> Result<(), AllocError> {
    for number in 0..functions {
        push_numbered(alloc, text, b"unsigned f", number, b"(unsigned x){")?;
        push_times(text, part, count)?;
        text.extend_from_slice(b"return x;}\n")?;
    }
    text.extend_from_slice(b"int main(void){unsigned x=3u;")?;
    for number in 0..functions {
        push_numbered(alloc, text, b"x=f", number, b"(x);")?;
    }
    text.extend_from_slice(b"return (int)(x-3u);}\n")
}

/// A program of so many functions that count to 300 each.
fn counting(alloc: Global, functions: u32) -> Result<Vec<u8>, AllocError> {
    let mut text = Vec::new(alloc);
    push_functions(alloc, &mut text, functions, b"x=x+1u;", 300)?;
    Ok(text)
}

/// A program whose calls of its first functions go back over more than a megabyte of code where no pass shortens it.
fn far(alloc: Global) -> Result<Vec<u8>, AllocError> {
    let mut cast = Vec::new(alloc);
    cast.extend_from_slice(b"x=(unsigned short)")?;
    push_times(&mut cast, b"(signed char)(unsigned short)", 30)?;
    cast.extend_from_slice(b"x;")?;
    let mut text = Vec::new(alloc);
    push_functions(alloc, &mut text, 13, &cast, 46)?;
    Ok(text)
}

/// How a session of a program by these words ends, whose script is to go on to the end.
fn runs(alloc: Global, words: &str, source: &[u8]) -> Result<Ending, AllocError> {
    let mut shelf = shelf(alloc, source, CONTINUE, [].as_slice())?;
    ended(alloc, words, &mut shelf, [].as_slice())
}

/// A session of a program by these words prints this, and its image has this version.
fn assert_runs(
    rt: &impl Abort,
    alloc: Global,
    words: &str,
    source: &[u8],
    printed: &[u8],
    version: u32,
) -> Result<(), AllocError> {
    let ended = runs(alloc, words, source)?;
    assert!(rt; ended.status == Status::Done && ended.taken.as_slice() == printed);
    assert!(rt; number_at(rt, &ended.image, 4) == version);
    Ok(())
}

#[test]
fn the_weight_of_a_program_decides_the_version(rt: HostRuntime) -> Result<(), Fail> {
    let cases: [(u32, &[u8], u32); 3] = [
        (2, b"exit 600\n", 3),
        (20, b"exit 6000\n", 4),
        (22, b"exit 6600\n", 4),
    ];
    for words in [BY_DEFAULT, BY_NONE, IN_SLOTS] {
        for (functions, printed, version) in cases {
            let source = counting(rt.alloc(), functions)?;
            assert_runs(&rt, rt.alloc(), words, &source, printed, version)?;
        }
    }
    Ok(())
}

#[test]
fn a_program_may_weigh_too_much(rt: HostRuntime) -> Result<(), Fail> {
    let source = counting(rt.alloc(), 23)?;
    let ended = session_ends(rt.alloc(), &source, CONTINUE, [].as_slice())?;
    assert!(rt; ended.status == Status::SourceRefused(Code::PROGRAM_WEIGHT, 1));
    Ok(())
}

#[test]
fn what_stands_before_all_functions_has_six_words(rt: HostRuntime) -> Result<(), Fail> {
    let source = counting(rt.alloc(), 20)?;
    let image = runs(rt.alloc(), BY_NONE, &source)?.image;
    assert!(rt; number_at(&rt, &image, 64) == 0x0300_0137, "lui sp, 0x3000");
    assert!(rt;
        number_at(&rt, &image, 68) == 0x4000_0213,
        "addi tp, zero, 1024"
    );
    assert!(rt;
        number_at(&rt, &image, 80) == 0x00a0_0893,
        "addi a7, zero, 10"
    );
    assert!(rt; number_at(&rt, &image, 84) == 0x0000_0073, "ecall");
    Ok(())
}

#[test]
fn a_call_may_be_far(rt: HostRuntime) -> Result<(), Fail> {
    let source = far(rt.alloc())?;
    assert_runs(&rt, rt.alloc(), IN_SLOTS, &source, b"exit 0\n", 4)?;
    Ok(())
}
