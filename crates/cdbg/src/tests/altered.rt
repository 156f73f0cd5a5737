//! Images that were altered or cut off.

use super::attaching::{attach, shelf};
use super::sessions::ended;
use super::{PROGRAM, number_at, session_ends};
use debug_records::Code;
use line_form::Status;
use outside::{MemShelf, MemSink};
use std::alloc::{AllocError, Global};
use std::process::Abort;
use std::test::Fail;

/// An offset in an image of so many code words.
#[derive(Clone, Copy)]
struct Offset {
    fixed: usize,
    /// How many bytes it grows by with each code word.
    each: usize,
}

impl Offset {
    fn in_image(&self, words: usize) -> usize {
        self.fixed.wrapping_add(words.wrapping_mul(self.each))
    }
}

/// A byte that is set at an offset, and the rule that the image then breaks, with its offset.
#[derive(Clone, Copy)]
struct Alteration {
    at: Offset,
    byte: u8,
    code: Code,
    offset: Offset,
}

/// A byte of a section that stands behind the code, with the offset at which it is refused.
fn refused_at(fixed: usize, each: usize, byte: u8, code: Code) -> Alteration {
    Alteration {
        at: Offset { fixed, each },
        byte,
        code,
        offset: Offset { fixed, each },
    }
}

/// What an image of the program is refused for, byte by byte.
fn alterations() -> [Alteration; 12] {
    [
        // The first byte, the version, the mode, and the number that is always zero.
        refused_at(0, 0, 0x44, Code::MAGIC),
        refused_at(4, 0, 9, Code::VERSION),
        refused_at(12, 0, 2, Code::HEADER_NUMBERS),
        refused_at(60, 0, 1, Code::HEADER_NUMBERS),
        // The length of the function's name, and its frame.
        refused_at(64, 4, 0, Code::FUNCTIONS),
        refused_at(76, 4, 8, Code::FUNCTIONS),
        // The line of the third place, the owner of the first word, the type of x.
        refused_at(120, 4, 1, Code::PLACES),
        refused_at(164, 4, 6, Code::OWNERS),
        refused_at(176, 8, 7, Code::VARIABLES),
        // The place that the first flow pair leaves, and the verdict of the first visible row.
        refused_at(196, 8, 0, Code::PAIRS_AND_ROWS),
        refused_at(252, 8, 4, Code::PAIRS_AND_ROWS),
        // The last byte of the names.
        refused_at(332, 8, b' ', Code::NODES_AND_NAMES),
    ]
}

/// The image of the program that stands beside these tests.
fn image_of_program(alloc: Global) -> Result<Vec<u8>, AllocError> {
    let ended = session_ends(alloc, PROGRAM, b"".as_slice(), [].as_slice())?;
    Ok(ended.image)
}

/// How many code words an image has.
fn code_words(rt: &impl Abort, image: &[u8]) -> usize {
    number_at(rt, image, 16) as usize
}

/// Sets a byte of an image.
fn set(rt: &impl Abort, image: &mut Vec<u8>, at: usize, byte: u8) {
    assert!(rt; at < image.len());
    image[at] = byte;
}

/// How a session of these bytes ends.
fn status_of(alloc: Global, image: &[u8]) -> Result<Status, AllocError> {
    let mut shelf = shelf(alloc, image, b"step\n".as_slice(), b"".as_slice())?;
    let mut sink = MemSink::new(alloc, [].as_slice())?;
    Ok(attach(alloc, &mut shelf, &mut sink)?)
}

#[test]
fn an_altered_image_is_refused_where_it_was_altered(rt: HostRuntime) -> Result<(), Fail> {
    let image = image_of_program(rt.alloc())?;
    let words = code_words(&rt, &image);
    for alteration in alterations() {
        let mut altered = image.to_vec(rt.alloc())?;
        set(
            &rt,
            &mut altered,
            alteration.at.in_image(words),
            alteration.byte,
        );
        assert!(rt;
            status_of(rt.alloc(), &altered)?
                == Status::ImageRefused(alteration.code, alteration.offset.in_image(words))
        );
    }
    Ok(())
}

#[test]
fn a_length_that_is_not_the_image_s_is_refused(rt: HostRuntime) -> Result<(), Fail> {
    let mut image = image_of_program(rt.alloc())?;
    assert!(rt; image.len() > 8);
    image[8] = image[8].wrapping_add(1);
    assert!(rt; status_of(rt.alloc(), &image)? == Status::ImageRefused(Code::LENGTH, 8));
    Ok(())
}

#[test]
fn an_image_that_is_cut_off_is_refused(rt: HostRuntime) -> Result<(), Fail> {
    let image = image_of_program(rt.alloc())?;
    for length in 0..image.len() {
        let refused = if length < 64 {
            Status::ImageRefused(Code::HEADER_SIZE, length)
        } else {
            Status::ImageRefused(Code::LENGTH, 8)
        };
        assert!(rt; status_of(rt.alloc(), &image[..length])? == refused);
    }
    Ok(())
}

#[test]
fn places_out_of_order_are_refused(rt: HostRuntime) -> Result<(), Fail> {
    let mut image = image_of_program(rt.alloc())?;
    let words = code_words(&rt, &image);
    // The second and the third record of the places.
    let second = words.wrapping_mul(4).wrapping_add(100);
    let third = second.wrapping_add(16);
    for byte in 0..16 {
        let at = second.wrapping_add(byte);
        let other = third.wrapping_add(byte);
        assert!(rt; at < image.len() && other < image.len());
        image.swap(at, other);
    }
    assert!(rt; status_of(rt.alloc(), &image)? == Status::ImageRefused(Code::PLACES, third));
    Ok(())
}

/// The program's image with another first code word, which is less than 256.
fn image_with(rt: &impl Abort, alloc: Global, word: u8) -> Result<Vec<u8>, AllocError> {
    let mut image = image_of_program(alloc)?;
    set(rt, &mut image, 64, word);
    for at in 65..68 {
        set(rt, &mut image, at, 0);
    }
    Ok(image)
}

/// What the session of these words prints over an image, where it is done; else nothing.
fn printed(alloc: Global, words: &str, image: &[u8], script: &[u8]) -> Result<Vec<u8>, AllocError> {
    let mut shelf = shelf(alloc, image, script, b"".as_slice())?;
    let ended = ended(alloc, words, &mut shelf, [].as_slice())?;
    if ended.status == Status::Done {
        Ok(ended.taken)
    } else {
        Ok(Vec::new(alloc))
    }
}

#[test]
fn a_word_that_is_no_instruction_is_a_fault(rt: HostRuntime) -> Result<(), Fail> {
    let image = image_with(&rt, rt.alloc(), 0)?;
    let words = "cdbg attach --limit 100 image script input";
    let faults = printed(rt.alloc(), words, &image, b"step\nstep\n".as_slice())?;
    assert!(rt; faults.as_slice() == b"fault 0x00010000\nfault 0x00010000\n".as_slice());
    Ok(())
}

#[test]
fn a_jump_to_itself_meets_the_limit(rt: HostRuntime) -> Result<(), Fail> {
    let image = image_with(&rt, rt.alloc(), 0x6f)?;
    let words = "cdbg attach --limit 50 image script input";
    let spins = printed(rt.alloc(), words, &image, b"step\n".as_slice())?;
    assert!(rt; spins.as_slice() == b"limit 50\n".as_slice());
    Ok(())
}

/// A program that calls.
const CALLING: &[u8] = b"int f(void){return 3;}\nint main(void){\nint x=f();\nreturn x;\n}\n";

/// The calling program's image, with a machine whose count of calls begins with 1024 and a number, which is less than
/// 16. A stop is less deep by that number.
fn image_that_begins(rt: &impl Abort, alloc: Global, above: u8) -> Result<Vec<u8>, AllocError> {
    let ended = session_ends(alloc, CALLING, b"".as_slice(), [].as_slice())?;
    let mut image = ended.image;
    set(rt, &mut image, 70, above.wrapping_mul(16));
    Ok(image)
}

/// What scripts print over the calling program, by the number that is added to the count of calls: depths are words
/// without a sign.
static DEPTHS: [(u8, &[u8], &[u8]); 6] = [
    (
        0,
        b"step\nnext\nnext\n",
        b"at 4 line 3 main depth 1\nat 5 line 4 main depth 1\nexit 3\n",
    ),
    (
        1,
        b"step\nnext\nnext\n",
        b"at 4 line 3 main depth 0\nat 5 line 4 main depth 0\nexit 3\n",
    ),
    (1, b"step\nfinish\n", b"at 4 line 3 main depth 0\nexit 3\n"),
    (
        1,
        b"break f\nstep\nfinish\nfinish\n",
        b"break at 2\nat 4 line 3 main depth 0\nat 2 line 1 f depth 1\nat 5 line 4 main depth 0\n",
    ),
    (
        2,
        b"step\nnext\nnext\n",
        b"at 4 line 3 main depth 4294967295\nat 2 line 1 f depth 0\nexit 3\n",
    ),
    (
        2,
        b"step\nfinish\nfinish\n",
        b"at 4 line 3 main depth 4294967295\nat 2 line 1 f depth 0\nexit 3\n",
    ),
];

fn depths() -> &'static [(u8, &'static [u8], &'static [u8])] {
    &DEPTHS
}

#[test]
fn depths_have_no_sign(rt: HostRuntime) -> Result<(), Fail> {
    let words = "cdbg attach image script input";
    for (above, script, lines) in depths() {
        let image = image_that_begins(&rt, rt.alloc(), *above)?;
        let said = printed(rt.alloc(), words, &image, *script)?;
        assert!(rt; said.as_slice() == *lines, "{above}: {script:?}");
    }
    Ok(())
}

#[test]
fn an_image_may_be_absent(rt: HostRuntime) -> Result<(), Fail> {
    let mut shelf = MemShelf::new(rt.alloc(), [].as_slice())?;
    let mut sink = MemSink::new(rt.alloc(), [].as_slice())?;
    assert!(rt; attach(rt.alloc(), &mut shelf, &mut sink)? == Status::ReadFault);
    Ok(())
}
