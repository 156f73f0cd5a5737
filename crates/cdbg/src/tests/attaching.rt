//! Sessions of saved images.

use super::images::{
    MOVED_PRODUCT, MUCH_OUTPUT, POINTERS, REMOVED_ASSIGNMENTS, REMOVED_IN_ONE_ARM,
    SHARED_REGISTERS, STATICS,
};
use super::{run, split};
use line_form::Status;
use outside::{MemShelf, MemSink};
use std::alloc::{AllocError, Global};
use std::test::Fail;

/// A shelf with an image, a script and an input.
pub(super) fn shelf(
    alloc: Global,
    image: &[u8],
    script: &[u8],
    input: &[u8],
) -> Result<MemShelf, AllocError> {
    let mut shelf = MemShelf::new(alloc, [].as_slice())?;
    shelf.place(alloc, "image", image)?;
    shelf.place(alloc, "script", script)?;
    shelf.place(alloc, "input", input)?;
    Ok(shelf)
}

/// How a session of the saved image on a shelf ends.
pub(super) fn attach(
    alloc: Global,
    shelf: &mut MemShelf,
    sink: &mut MemSink,
) -> Result<Status, AllocError> {
    let words = split(alloc, "cdbg attach image script input")?;
    Ok(run(alloc, &words, shelf, sink))
}

/// An image that another compiler wrote.
enum Written {
    RemovedAssignments,
    RemovedInOneArm,
    MovedProduct,
    SharedRegisters,
    Pointers,
    Statics,
}

impl Written {
    fn bytes(&self) -> &'static [u8] {
        match self {
            Written::RemovedAssignments => REMOVED_ASSIGNMENTS,
            Written::RemovedInOneArm => REMOVED_IN_ONE_ARM,
            Written::MovedProduct => MOVED_PRODUCT,
            Written::SharedRegisters => SHARED_REGISTERS,
            Written::Pointers => POINTERS,
            Written::Statics => STATICS,
        }
    }
}

/// A session of such an image.
struct Attached {
    /// What it shows.
    shows: &'static str,
    image: Written,
    script: &'static [u8],
    input: &'static [u8],
    /// What it prints.
    printed: &'static [u8],
}

/// What sessions of images print that another compiler wrote.
static ATTACHED: [Attached; 7] = [
    Attached {
        shows: "a removed assignment is recovered or marked",
        image: Written::RemovedAssignments,
        script: b"break 6\ncontinue\nprint x\nstep\nprint x\nbreak 10\ncontinue\nlocals\n",
        input: b"C",
        printed: b"break at 5\nat 5 line 6 main depth 1\nx = 0 (recovered: 2 dead removed 3)\nat 6 line 7 main depth 1\nx = 67 (recovered: 4 dead removed 5)\nbreak at 9\nout \"D\"\nat 9 line 10 main depth 1\ny = 7\nx noncurrent: 4 dead removed 5, path 5 6 7 8 9\nz = 68\n",
    },
    Attached {
        shows: "an arm removed assignment is marked behind it",
        image: Written::RemovedInOneArm,
        script: b"break 5\ncontinue\nprint x\nbreak 11\ncontinue\nprint x\n",
        input: b"A",
        printed: b"break at 5\nat 5 line 5 main depth 1\nx = 1 (recovered: 1 dead removed 4)\nbreak at 9\nat 9 line 11 main depth 1\nx noncurrent: 2 dead removed 6, path 6 9\n",
    },
    Attached {
        shows: "an outer activation is listed",
        image: Written::RemovedInOneArm,
        script: b"break f\ncontinue\nwhere\nbreak 9\ncontinue\nprint x\nstep\nprint x\n",
        input: b"BZ",
        printed: b"break at 2\nat 2 line 2 f depth 2\n#0 f line 2 place 2\n#1 main line 8 place 7\nbreak at 8\nat 8 line 9 main depth 1\nx = 90\nout \"Z\"\nat 9 line 11 main depth 1\nx noncurrent: 2 dead removed 6, path 6 9\n",
    },
    Attached {
        shows: "a moved product is marked before its assignment",
        image: Written::MovedProduct,
        script: b"break 9\ncontinue\nprint x\nstep\nprint x\ncontinue\nprint x\n",
        input: b"\x02\x03",
        printed: b"break at 7\nout \"\\x01\"\nat 7 line 9 main depth 1\nx noncurrent: 1 motion moved 7, path 4 5 6 7\nat 8 line 10 main depth 1\nx = 6\nout \"\\x06\"\nat 7 line 9 main depth 1\nx noncurrent: 1 motion moved 7, path 4 5 6 7\n",
    },
    Attached {
        shows: "a variable whose register is taken is marked",
        image: Written::SharedRegisters,
        script: b"break 5\ncontinue\nprint a\nprint b\nprint p\nprint z\ncontinue\n",
        input: b"ABCDEFGHIJKLMNOPQRST",
        printed: b"break at 23\nat 23 line 5 main depth 1\na nonresident: 1 homes reused 2, path 2 3 4 5 6 7 8 9 10 11 12 13 14 15 16 17 18 19 20 21 22 23\nb = 66\np = 80\nz = 1490\nout \"\\xd2\"\nexit 0\n",
    },
    Attached {
        shows: "arrays and pointers are shown",
        image: Written::Pointers,
        script: b"step\nstep\nstep\nstep\nstep\nprint a\nprint p\nprint q\ncontinue\n",
        input: b"",
        printed: b"at 2 line 1 main depth 1\nat 3 line 1 main depth 1\nat 4 line 1 main depth 1\nat 5 line 1 main depth 1\nat 6 line 1 main depth 1\na = {1, 2}\np = &a@1+8\nq = &b@1+0\nexit 0\n",
    },
    Attached {
        shows: "static variables are shown",
        image: Written::Statics,
        script: b"step\nstep\nprint g\nprint s\nprint h\nlocals\n",
        input: b"",
        printed: b"at 2 line 1 main depth 1\nat 3 line 1 main depth 1\ng = 3\ns = &#1+0\nno h here\nk = 0\n",
    },
];

fn sessions_of_images() -> &'static [Attached] {
    &ATTACHED
}

/// What a session of an image puts out, where it is done.
fn put_out(
    alloc: Global,
    image: &[u8],
    script: &[u8],
    input: &[u8],
) -> Result<Option<Vec<u8>>, AllocError> {
    let mut shelf = shelf(alloc, image, script, input)?;
    let mut sink = MemSink::new(alloc, [].as_slice())?;
    if attach(alloc, &mut shelf, &mut sink)? == Status::Done {
        Ok(Some(sink.bytes().to_vec(alloc)?))
    } else {
        Ok(None)
    }
}

/// Whether a session of an image prints what it should.
fn holds(alloc: Global, session: &Attached) -> Result<bool, AllocError> {
    match put_out(alloc, session.image.bytes(), session.script, session.input)? {
        Some(printed) => Ok(printed.as_slice() == session.printed),
        None => Ok(false),
    }
}

#[test]
fn images_of_another_compiler_are_debugged(rt: HostRuntime) -> Result<(), Fail> {
    for session in sessions_of_images() {
        let is_right = holds(rt.alloc(), session)?;
        assert!(rt; is_right, "{}", session.shows);
    }
    Ok(())
}

/// How many lines a text has that begin so.
pub(super) fn count_of_lines(text: &[u8], start: &[u8]) -> usize {
    text.split(|byte| *byte == b'\n')
        .filter(|line| line.starts_with(start))
        .count()
}

fn much_output() -> &'static [u8] {
    MUCH_OUTPUT
}

#[test]
fn output_of_any_size_is_said(rt: HostRuntime) -> Result<(), Fail> {
    let script = b"continue\n".as_slice();
    let Some(printed) = put_out(rt.alloc(), much_output(), script, b"".as_slice())? else {
        return Err(Fail::from("a session that is done"));
    };
    // 70,000 bytes in lines of 64.
    assert!(rt; count_of_lines(&printed, b"out \"A".as_slice()) == 1094);
    assert!(rt; printed.ends_with(b"A\"\nexit 0\n".as_slice()));
    Ok(())
}
