//! Where the current path of a suspect variable begins, in images in which that place was altered.

use super::attaching::{attach, shelf as image_shelf};
use super::programs::ON_ONE_WAY;
use super::sessions::{ended, prints, shelf};
use debug_records::Code;
use line_form::Status;
use outside::MemSink;
use std::alloc::{AllocError, Global};
use std::process::Abort;
use std::test::Fail;

const ATTACH: &str = "cdbg attach image script input";

/// Places 4, 6 and 7 assign x; the assignments of 4 and 6 are removed.
const REMOVED: &str = "cdbg debug --passes dead --homes slots program.c script input image";

const REMOVED_SCRIPT: &[u8] = b"break 11\ncontinue\nprint x\n";

/// How far before the end of that image the place stands at which the current path of x at place 9 begins.
const REMOVED_START: usize = 58;

/// Places 4 and 7 assign x; at the end of place 6 the product is written into its register.
const PRODUCT: &[u8] =
    b"#include <stdio.h>\nint main(void){\nint a=getchar();\nint b=getchar();\nint x=1;\nputchar(x);\nint i=0;\ndo{\nx=a*b;\nputchar(x);\ni=i+1;\n}while(i<2);\nreturn x;\n}\n";

const MOVED: &str = "cdbg debug --passes motion --homes registers program.c script input image";

const MOVED_SCRIPT: &[u8] = b"break 9\ncontinue\nprint x\n";

/// How far before the end of that image the place stands at which the current path of x at place 7 begins.
const MOVED_START: usize = 494;

/// The image of a source with another byte, so far before its end.
fn altered(
    rt: &impl Abort,
    alloc: Global,
    words: &str,
    source: &[u8],
    back: usize,
    byte: u8,
) -> Result<Vec<u8>, AllocError> {
    let mut shelf = shelf(alloc, source, b"".as_slice(), b"".as_slice())?;
    let ended = ended(alloc, words, &mut shelf, [].as_slice())?;
    let mut image = ended.image;
    assert!(rt; 0 < back && back <= image.len());
    let at = image.len() - back;
    image[at] = byte;
    Ok(image)
}

/// Whether the removed assignments' image prints this where its path begins at that place.
fn removed_prints(
    rt: &impl Abort,
    alloc: Global,
    place: u8,
    printed: &[u8],
) -> Result<bool, AllocError> {
    let image = altered(rt, alloc, REMOVED, ON_ONE_WAY, REMOVED_START, place)?;
    let mut shelf = image_shelf(alloc, &image, REMOVED_SCRIPT, b"A".as_slice())?;
    prints(alloc, ATTACH, &mut shelf, printed)
}

#[test]
fn a_row_says_where_a_current_path_begins(rt: HostRuntime) -> Result<(), Fail> {
    let suspect =
        b"break at 9\nat 9 line 11 main depth 1\nx suspect: 2 dead removed 6, path 6 9, current path 7 8 9\n";
    assert!(rt; removed_prints(&rt, rt.alloc(), 7, suspect.as_slice())?);
    let none = b"break at 9\nat 9 line 11 main depth 1\nx noncurrent: 2 dead removed 6, path 6 9\n";
    assert!(rt; removed_prints(&rt, rt.alloc(), 0, none.as_slice())?);
    Ok(())
}

#[test]
fn a_current_path_begins_at_an_assignment_that_stays(rt: HostRuntime) -> Result<(), Fail> {
    // Two whose assignment was removed, a condition and the stop itself, which assign nothing, and no place at all.
    for place in [4, 6, 5, 9, 12] {
        let image = altered(&rt, rt.alloc(), REMOVED, ON_ONE_WAY, REMOVED_START, place)?;
        assert!(rt; REMOVED_START <= image.len());
        let offset = image.len() - REMOVED_START;
        let mut shelf = image_shelf(rt.alloc(), &image, REMOVED_SCRIPT, b"A".as_slice())?;
        let mut sink = MemSink::new(rt.alloc(), [].as_slice())?;
        let status = attach(rt.alloc(), &mut shelf, &mut sink)?;
        assert!(rt; status == Status::ImageRefused(Code::PAIRS_AND_ROWS, offset));
    }
    Ok(())
}

#[test]
fn a_current_path_passes_no_word_that_writes_the_home(rt: HostRuntime) -> Result<(), Fail> {
    let image = altered(&rt, rt.alloc(), MOVED, PRODUCT, MOVED_START, 4)?;
    let mut shelf = image_shelf(rt.alloc(), &image, MOVED_SCRIPT, b"\x02\x03".as_slice())?;
    let none =
        b"break at 7\nout \"\\x01\"\nat 7 line 9 main depth 1\nx suspect: 1 motion moved 7, path 4 5 6 7, current path none\n";
    assert!(rt; prints(rt.alloc(), ATTACH, &mut shelf, none.as_slice())?);
    Ok(())
}
