//! Sessions over a shelf and a sink in memory.

ghost use Rattle.std.specs.Prelude.{◌<◌};

mod altered;
mod attaching;
mod branches;
mod failing;
mod handed_in;
mod images;
mod large;
mod optimised;
mod orders;
mod programs;
mod quiet;
mod sessions;

use self::sessions::{Ending, IN_SLOTS, assert_refused, ended, prints};
use crate::session_of;
use debug_records::Code;
use line_form::{Status, fault_text};
use outside::{MemShelf, MemSink, Shelf};
use std::alloc::{AllocError, Global};
use std::process::Abort;
use std::test::Fail;

const PROGRAM: &[u8] =
    b"#include <stdio.h>\nint main(void){int x=2; x=x+3; putchar(65); return x;}\n";

const SCRIPT: &[u8] = b"step\nstep\nprint x\nstep\nprint x\nstep\nstep\n";

const TRANSCRIPT: &[u8] =
    b"at 2 line 2 main depth 1\nat 3 line 2 main depth 1\nx = 2\nat 4 line 2 main depth 1\nx = 5\nout \"A\"\nat 5 line 2 main depth 1\nexit 5\n";

/// The words that stand between spaces.
fn split(alloc: Global, text: &str) -> Result<Vec<String>, AllocError> {
    let mut words = Vec::new(alloc);
    for word in text.split(' ') {
        words.push(String::from_str(alloc, word)?)?;
    }
    Ok(words)
}

/// A shelf with a source, a script and the empty input, whose calls of these numbers fail.
fn shelf(
    alloc: Global,
    source: &[u8],
    script: &[u8],
    fails: &[u64],
) -> Result<MemShelf, AllocError> {
    let mut shelf = MemShelf::new(alloc, fails)?;
    shelf.place(alloc, "program.c", source)?;
    shelf.place(alloc, "script", script)?;
    shelf.place(alloc, "input", b"".as_slice())?;
    Ok(shelf)
}

/// A session in memory. What its contract says is left out here, so that a test owes no proof of what it looks at.
fn run<S: Shelf>(alloc: Global, words: &[String], shelf: &mut S, sink: &mut MemSink) -> Status {
    match session_of(alloc, words, shelf, sink) {
        Ok(status) => status,
        Err(_) => Status::NoMemory,
    }
}

/// How a session of a source by the one job ends, over a shelf whose calls of these numbers fail.
fn session_ends(
    alloc: Global,
    source: &[u8],
    script: &[u8],
    fails: &[u64],
) -> Result<Ending, AllocError> {
    let mut shelf = shelf(alloc, source, script, fails)?;
    ended(alloc, IN_SLOTS, &mut shelf, [].as_slice())
}

/// How a session of a source with the usual script ends.
fn status_of(alloc: Global, source: &[u8]) -> Result<Status, AllocError> {
    let ended = session_ends(alloc, source, SCRIPT, [].as_slice())?;
    Ok(ended.status)
}

#[test]
fn a_program_runs_from_its_bytes_to_its_transcript(rt: HostRuntime) -> Result<(), Fail> {
    let ended = session_ends(rt.alloc(), PROGRAM, SCRIPT, [].as_slice())?;
    assert!(rt; ended.status == Status::Done && ended.taken.as_slice() == TRANSCRIPT);
    Ok(())
}

#[test]
fn an_empty_script_saves_the_image_and_says_nothing(rt: HostRuntime) -> Result<(), Fail> {
    let ended = session_ends(rt.alloc(), PROGRAM, b"".as_slice(), [].as_slice())?;
    assert!(rt; ended.status == Status::Done);
    assert!(rt; ended.taken.is_empty() && !ended.image.is_empty());
    Ok(())
}

/// How a session of the program ends, with a sink whose calls of these numbers fail.
fn cut_off(alloc: Global, fails: &[u64]) -> Result<Ending, AllocError> {
    let mut shelf = shelf(alloc, PROGRAM, SCRIPT, [].as_slice())?;
    ended(alloc, IN_SLOTS, &mut shelf, fails)
}

#[test]
fn the_empty_source_is_refused(rt: HostRuntime) -> Result<(), Fail> {
    let ended = session_ends(rt.alloc(), b"".as_slice(), SCRIPT, [].as_slice())?;
    assert!(rt; ended.status == Status::SourceRefused(Code::NO_MAIN, 1));
    assert_refused(
        &rt,
        rt.alloc(),
        &ended,
        3,
        "cdbg: source refused E29 line 1",
    )?;
    Ok(())
}

#[test]
fn a_source_is_refused_before_its_script(rt: HostRuntime) -> Result<(), Fail> {
    let script = b"jump 3\n".as_slice();
    let ended = session_ends(rt.alloc(), b"int".as_slice(), script, [].as_slice())?;
    assert!(rt; ended.status == Status::SourceRefused(Code::UNEXPECTED_TOKEN, 1));
    Ok(())
}

/// The number of four bytes at an offset, the lowest first.
fn number_at(rt: &impl Abort, bytes: &[u8], offset: usize) -> u32
    requires { offset < 1000 }
{
    assert!(rt; offset + 4 <= bytes.len());
    u32::from_le_bytes([
        bytes[offset],
        bytes[offset + 1],
        bytes[offset + 2],
        bytes[offset + 3],
    ])
}

#[test]
fn the_image_has_the_size_of_its_parts(rt: HostRuntime) -> Result<(), Fail> {
    let image = cut_off(rt.alloc(), [].as_slice())?.image;
    let words_of_code = number_at(&rt, &image, 16) as usize;
    assert!(rt; image.len() == words_of_code.wrapping_mul(8).wrapping_add(333));
    assert!(rt; number_at(&rt, &image, 24) == 1, "functions");
    assert!(rt; number_at(&rt, &image, 28) == 5, "places");
    assert!(rt; number_at(&rt, &image, 32) == 1, "variables");
    assert!(rt; number_at(&rt, &image, 40) == 4, "flow pairs");
    assert!(rt; number_at(&rt, &image, 44) == 2, "assigned pairs");
    assert!(rt; number_at(&rt, &image, 48) == 3, "visible rows");
    assert!(rt; number_at(&rt, &image, 56) == 5, "bytes of names");
    Ok(())
}

/// The status of a session with these words, which stand between spaces, over an empty shelf.
fn status_of_words(alloc: Global, text: &str) -> Result<Status, AllocError> {
    let mut shelf = MemShelf::new(alloc, [].as_slice())?;
    let mut sink = MemSink::new(alloc, [].as_slice())?;
    let words = split(alloc, text)?;
    Ok(run(alloc, &words, &mut shelf, &mut sink))
}

#[test]
fn other_words_are_no_job(rt: HostRuntime) -> Result<(), Fail> {
    // A job that is served would answer `ReadFault` over an empty shelf.
    let texts = [
        "cdbg",
        "cdbg debug --passes none --homes slots p.c s i",
        "cdbg debug --passes none --homes slots p.c s -i image",
        "cdbg debug --passes none --homes slots p.c s - image",
        "cdbg debug --passes none --homes slots -- p.c s i image",
        "cdbg debug --passes none --homes slots --homes=slots p.c s i image",
        "cdbg debug --passes none --homes slots --limit 1000000001 p.c s i image",
        "cdbg debug --passes none --homes slots --limit=-5 p.c s i image",
        "cdbg debug --passes none --homes slots --limit p.c s i image",
        "cdbg debug --passes copy,nosuch --homes slots p.c s i image",
        "cdbg compile --passes none --homes slots --limit 5 p.c image",
        "cdbg passes --passes none --homes slots p.c",
        "cdbg sweep 7 401",
        "cdbg sweep 7 0",
    ];
    for text in texts {
        assert!(rt; status_of_words(rt.alloc(), text)? == Status::Usage);
    }
    let status = status_of_words(rt.alloc(), "cdbg help")?;
    assert!(rt; status.number() == 2);
    assert!(rt; fault_text(rt.alloc(), &status)?.as_str() == "cdbg: usage");
    let served = "cdbg debug --passes=none p.c s --limit=0001000000000 i image --homes=slots";
    assert!(rt; status_of_words(rt.alloc(), served)? == Status::ReadFault);
    let compiled = "cdbg compile p.c image";
    assert!(rt; status_of_words(rt.alloc(), compiled)? == Status::ReadFault);
    let listed = "cdbg passes p.c --passes=dead,dead";
    assert!(rt; status_of_words(rt.alloc(), listed)? == Status::ReadFault);
    Ok(())
}

/// The words of a job that lists so many passes.
fn listing(alloc: Global, passes: u32) -> Result<String, AllocError> {
    let mut text = String::from_str(alloc, "cdbg passes program.c --passes=dead")?;
    for _ in 1..passes {
        text.push_str(",dead")?;
    }
    Ok(text)
}

#[test]
fn a_list_has_at_most_32_passes(rt: HostRuntime) -> Result<(), Fail> {
    let most = listing(rt.alloc(), 32)?;
    assert!(rt; status_of_words(rt.alloc(), &most)? == Status::ReadFault);
    let more = listing(rt.alloc(), 33)?;
    assert!(rt; status_of_words(rt.alloc(), &more)? == Status::Usage);
    Ok(())
}

#[test]
fn options_stand_in_any_order(rt: HostRuntime) -> Result<(), Fail> {
    let words = "cdbg debug program.c --limit=5000 script --homes=slots input image --passes=none";
    let mut shelf = shelf(rt.alloc(), PROGRAM, SCRIPT, [].as_slice())?;
    assert!(rt; prints(rt.alloc(), words, &mut shelf, TRANSCRIPT)?);
    Ok(())
}

#[test]
fn the_limit_is_kept(rt: HostRuntime) -> Result<(), Fail> {
    let words = "cdbg debug --passes none --homes slots program.c script input image --limit 0";
    let mut shelf = shelf(rt.alloc(), PROGRAM, b"step\n".as_slice(), [].as_slice())?;
    assert!(rt; prints(rt.alloc(), words, &mut shelf, b"limit 0\n".as_slice())?);
    Ok(())
}

/// So many spaces.
fn spaces(alloc: Global, count: usize) -> Result<Vec<u8>, AllocError> {
    let mut text = Vec::new(alloc);
    text.resize(count, b' ')?;
    Ok(text)
}

#[test]
fn a_script_may_be_too_long(rt: HostRuntime) -> Result<(), Fail> {
    let script = spaces(rt.alloc(), 1048577)?;
    // The third load would fail: that of the input does not come.
    let mut shelf = shelf(rt.alloc(), b"int".as_slice(), &script, [3].as_slice())?;
    let ended = ended(rt.alloc(), IN_SLOTS, &mut shelf, [].as_slice())?;
    assert_refused(&rt, rt.alloc(), &ended, 9, "cdbg: too long script")?;
    Ok(())
}

#[test]
fn an_input_may_be_too_long(rt: HostRuntime) -> Result<(), Fail> {
    let input = spaces(rt.alloc(), 16777217)?;
    let script = b"jump 3\n".as_slice();
    let mut shelf = sessions::shelf(rt.alloc(), b"int".as_slice(), script, &input)?;
    let ended = ended(rt.alloc(), IN_SLOTS, &mut shelf, [].as_slice())?;
    assert_refused(&rt, rt.alloc(), &ended, 9, "cdbg: too long input")?;
    Ok(())
}

#[test]
fn an_ending_is_said_again_and_no_stop_is_shown_there(rt: HostRuntime) -> Result<(), Fail> {
    let source = b"#include <stdio.h>\nint main(void){return 7;}".as_slice();
    let script = b"print x\nstep\nprint y\nstep\nstep\nprint x\n".as_slice();
    let ended = session_ends(rt.alloc(), source, script, [].as_slice())?;
    let expected =
        b"no stop\nat 2 line 2 main depth 1\nno y here\nexit 7\nexit 7\nno stop\n".as_slice();
    assert!(rt; ended.status == Status::Done && ended.taken.as_slice() == expected);
    Ok(())
}

/// Sources, the rule that each breaks first, and its line.
static REFUSED: [(&[u8], Code, u32); 15] = [
    // Rules of tokens.
    (b"#define N 3\n", Code::UNKNOWN_DIRECTIVE, 1),
    (
        b"int main(void){return 2147483648;}",
        Code::MALFORMED_CONSTANT,
        1,
    ),
    (b"/*", Code::UNENDED_COMMENT, 1),
    (b"int main(void){char c='", Code::MALFORMED_LITERAL, 1),
    (b"int main(void){\nreturn\\\n0;}", Code::UNKNOWN_BYTE, 2),
    (b"int main(void){return '\\q';}", Code::UNKNOWN_ESCAPE, 1),
    (b"int a<:2:>;", Code::UNKNOWN_BYTE, 1),
    // Rules of the grammar.
    (
        b"int main(void){goto a;a:return 0;}",
        Code::UNEXPECTED_KEYWORD,
        1,
    ),
    (b"int main(void){return 0", Code::UNEXPECTED_TOKEN, 1),
    (b"int\nmain(void){return 1 2;}", Code::UNEXPECTED_TOKEN, 2),
    // Rules of names and types.
    (b"", Code::NO_MAIN, 1),
    (b"int main(void){return n;}", Code::UNDECLARED, 1),
    (b"int main(void){putchar(65);}", Code::UNDECLARED, 1),
    (
        b"int main(void){int x=1;\nint x=2; return x;}",
        Code::REDECLARED,
        2,
    ),
    (b"int x; int main(int a){return a;}", Code::NO_MAIN, 1),
];

fn refused() -> &'static [(&'static [u8], Code, u32)] {
    &REFUSED
}

#[test]
fn a_source_is_refused_for_the_first_rule_that_it_breaks(rt: HostRuntime) -> Result<(), Fail> {
    for (source, code, line) in refused() {
        assert!(rt; status_of(rt.alloc(), *source)? == Status::SourceRefused(*code, *line));
    }
    Ok(())
}

/// Scripts that are refused, and what is said of each.
static REFUSED_SCRIPTS: [(&[u8], &str); 8] = [
    (b"jump 3\n", "cdbg: script refused S01 line 1"),
    (b"step step\n", "cdbg: script refused S01 line 1"),
    // Behind a `quit` too.
    (b"quit\njump\n", "cdbg: script refused S01 line 2"),
    (b"break 1234567890\n", "cdbg: script refused S02 line 1"),
    (b"break 0\n", "cdbg: script refused S02 line 1"),
    (b"break\n", "cdbg: script refused S03 line 1"),
    (b"print 9x\n", "cdbg: script refused S03 line 1"),
    // A line of 201 bytes.
    (
        b"step                                                                                                                                                                                                     \n",
        "cdbg: script refused S04 line 1",
    ),
];

fn refused_scripts() -> &'static [(&'static [u8], &'static str)] {
    &REFUSED_SCRIPTS
}

#[test]
fn a_script_is_refused_for_the_first_rule_that_it_breaks(rt: HostRuntime) -> Result<(), Fail> {
    for (script, fault) in refused_scripts() {
        let ended = session_ends(rt.alloc(), PROGRAM, *script, [].as_slice())?;
        assert_refused(&rt, rt.alloc(), &ended, 4, *fault)?;
    }
    Ok(())
}

/// A `main` that returns 0 in so many pairs of parentheses.
fn nested(alloc: Global, pairs: usize) -> Result<Vec<u8>, AllocError> {
    let mut text = Vec::from_slice(alloc, b"int main(void){return ")?;
    for _ in 0..pairs {
        text.push(b'(')?;
    }
    text.push(b'0')?;
    for _ in 0..pairs {
        text.push(b')')?;
    }
    text.extend_from_slice(b";}")?;
    Ok(text)
}

/// How a session of a `main` that returns 0 in so many pairs of parentheses ends.
fn nested_ends(alloc: Global, pairs: usize) -> Result<Ending, AllocError> {
    let source = nested(alloc, pairs)?;
    session_ends(alloc, &source, b"continue\n".as_slice(), [].as_slice())
}

#[test]
fn parentheses_nest_63_deep_in_a_return(rt: HostRuntime) -> Result<(), Fail> {
    for pairs in [62, 63] {
        let ended = nested_ends(rt.alloc(), pairs)?;
        assert!(rt; ended.status == Status::Done);
        assert!(rt; ended.taken.as_slice() == b"exit 0\n".as_slice());
    }
    let ended = nested_ends(rt.alloc(), 64)?;
    assert!(rt; ended.status == Status::SourceRefused(Code::NESTING, 1));
    Ok(())
}
