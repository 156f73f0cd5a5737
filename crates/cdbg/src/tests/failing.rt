//! Sessions in which a call of the shelf or of the sink fails.

use super::sessions::{IN_SLOTS, ended, outcome};
use super::{PROGRAM, SCRIPT, TRANSCRIPT, cut_off, shelf};
use debug_records::Code;
use line_form::Status;
use outside::{MemShelf, TornShelf};
use std::alloc::{AllocError, Global};
use std::test::Fail;

const COMPILED: &str = "cdbg compile program.c image";

const ATTACHED: &str = "cdbg attach image script input";

const LISTED: &str = "cdbg passes program.c";

/// What stands under the image's name before a session.
const BEFORE: &[u8] = b"what was there before";

/// A shelf with the program, its script, its input and a text under the image's name, whose call of this number fails.
fn failing_shelf(alloc: Global, call: u64) -> Result<MemShelf, AllocError> {
    let mut shelf = shelf(alloc, PROGRAM, SCRIPT, [call].as_slice())?;
    shelf.place(alloc, "image", BEFORE)?;
    Ok(shelf)
}

/// Whether each name of such a shelf holds what it held before the session.
fn is_as_before(shelf: &MemShelf) -> bool {
    shelf.held("program.c") == Some(PROGRAM)
        && shelf.held("script") == Some(SCRIPT)
        && shelf.held("input") == Some(b"".as_slice())
        && shelf.held("image") == Some(BEFORE)
}

/// Jobs, the call of the shelf that fails, and the number of the status then.
static FAILING_CALLS: [(&str, u64, u8); 10] = [
    // The source, the script, the input; then the image is saved.
    (IN_SLOTS, 1, 5),
    (IN_SLOTS, 2, 5),
    (IN_SLOTS, 3, 5),
    (IN_SLOTS, 4, 6),
    (COMPILED, 1, 5),
    (COMPILED, 2, 6),
    // The image, the script, the input.
    (ATTACHED, 1, 5),
    (ATTACHED, 2, 5),
    (ATTACHED, 3, 5),
    (LISTED, 1, 5),
];

fn failing_calls() -> &'static [(&'static str, u64, u8)] {
    &FAILING_CALLS
}

#[test]
fn a_call_of_the_shelf_that_fails_leaves_it_as_it_was(rt: HostRuntime) -> Result<(), Fail> {
    for (words, call, number) in failing_calls() {
        let mut shelf = failing_shelf(rt.alloc(), *call)?;
        let (status, taken) = outcome(rt.alloc(), *words, &mut shelf, [].as_slice())?;
        assert!(rt; status.number() == *number, "{words}, call {call}");
        assert!(rt;
            taken.is_empty() && is_as_before(&shelf),
            "{words}, call {call}"
        );
    }
    Ok(())
}

#[test]
fn a_session_makes_no_fifth_call_of_its_shelf(rt: HostRuntime) -> Result<(), Fail> {
    let mut shelf = failing_shelf(rt.alloc(), 5)?;
    let ended = ended(rt.alloc(), IN_SLOTS, &mut shelf, [].as_slice())?;
    assert!(rt; ended.status == Status::Done && ended.taken.as_slice() == TRANSCRIPT);
    assert!(rt; ended.image.starts_with(b"CDBG"));
    Ok(())
}

/// The lines that a sink fails at, and how many bytes the lines before have.
static LINES: [(u64, usize); 8] = [
    (1, 0),
    (2, 25),
    (3, 50),
    (4, 56),
    (5, 81),
    (6, 87),
    (7, 95),
    (8, 120),
];

fn lines() -> &'static [(u64, usize)] {
    &LINES
}

#[test]
fn a_sink_that_fails_at_a_line_has_taken_those_before(rt: HostRuntime) -> Result<(), Fail> {
    // There is no ninth line.
    let whole = cut_off(rt.alloc(), [9].as_slice())?;
    assert!(rt; whole.status == Status::Done && whole.taken.as_slice() == TRANSCRIPT);
    for (line, before) in lines() {
        let part = cut_off(rt.alloc(), [*line].as_slice())?;
        assert!(rt; part.status == Status::WriteFault, "line {line}");
        assert!(rt;
            part.taken.len() == *before && TRANSCRIPT.starts_with(&part.taken),
            "line {line}"
        );
        assert!(rt;
            part.image.as_slice() == whole.image.as_slice(),
            "line {line}"
        );
    }
    Ok(())
}

/// A shelf with the program, its script and its input, whose fourth call fails, as a save behind so many bytes.
fn torn_shelf(alloc: Global, keep: u32) -> Result<TornShelf, AllocError> {
    let mut shelf = TornShelf::new(alloc, [4].as_slice(), keep)?;
    shelf.place(alloc, "program.c", PROGRAM)?;
    shelf.place(alloc, "script", SCRIPT)?;
    shelf.place(alloc, "input", b"".as_slice())?;
    Ok(shelf)
}

/// How many bytes of the image a torn save leaves, and what these are refused for.
static TORN: [(u32, Code, usize); 3] = [
    (10, Code::HEADER_SIZE, 10),
    (63, Code::HEADER_SIZE, 63),
    (64, Code::LENGTH, 8),
];

fn torn() -> &'static [(u32, Code, usize)] {
    &TORN
}

#[test]
fn a_torn_save_is_told_and_its_image_refused(rt: HostRuntime) -> Result<(), Fail> {
    let whole = cut_off(rt.alloc(), [].as_slice())?.image;
    for (keep, code, offset) in torn() {
        let mut shelf = torn_shelf(rt.alloc(), *keep)?;
        let (saving, taken) = outcome(rt.alloc(), IN_SLOTS, &mut shelf, [].as_slice())?;
        assert!(rt;
            saving == Status::WriteFault && taken.is_empty(),
            "{keep} bytes"
        );
        let Some(part) = shelf.held("image") else {
            return Err(Fail::from("a part of the image"));
        };
        assert!(rt;
            part.len() == *keep as usize && whole.starts_with(part),
            "{keep} bytes"
        );
        let (status, taken) = outcome(rt.alloc(), ATTACHED, &mut shelf, [].as_slice())?;
        assert!(rt;
            status == Status::ImageRefused(*code, *offset),
            "{keep} bytes"
        );
        assert!(rt; taken.is_empty(), "{keep} bytes");
    }
    Ok(())
}
