//! What images say, and what altered and truncated bytes are refused for.

use crate::image_tests::samples::{LARGE, N, SMALL};
use debug_records::{Code, Mode};
use image_form::{ElementType, ImageErr, Storage, Variable, read, view, write};
use std::alloc::{AllocError, Global};
use std::process::Abort;
use std::test::Fail;

/// Why the bytes are no image, if they are none.
fn refusal(alloc: Global, bytes: &[u8]) -> Option<ImageErr> {
    read(alloc, bytes).err()
}

/// Why the bytes lend no image, if they lend none.
fn refusal_of_view(alloc: Global, bytes: &[u8]) -> Option<ImageErr> {
    view(alloc, bytes).err()
}

/// The bytes with another number in four of them.
fn altered(alloc: Global, bytes: &[u8], at: usize, number: u32) -> Result<Vec<u8>, AllocError> {
    let mut copy = bytes.to_vec(alloc)?;
    for (index, byte) in number.to_le_bytes().iter().enumerate() {
        if let Some(place) = copy.get_mut(at.saturating_add(index)) {
            *place = *byte;
        }
    }
    Ok(copy)
}

/// Where a number of an image is altered, the number that stands there then, the rule that it breaks, and at which
/// byte.
type Row = (usize, u32, Code, usize);

/// Each altered image is refused as it should be, whether it is read or viewed.
fn assert_refused(rt: &impl Abort, alloc: Global, image: &[u8], rows: &[Row]) -> Result<(), Fail> {
    for (at, number, code, offset) in rows {
        let bytes = altered(alloc, image, *at, *number)?;
        let wanted = ImageErr::Refused(*code, *offset);
        assert!(rt; refusal(alloc, &bytes) == Some(wanted), "{number} at {at}");
        assert!(rt;
            refusal_of_view(alloc, &bytes) == Some(wanted),
            "{number} at {at}"
        );
    }
    Ok(())
}

#[test]
fn each_number_has_its_rule(rt: HostRuntime) -> Result<(), Fail> {
    assert_refused(&rt, rt.alloc(), SMALL.as_slice(), small_refusals())?;
    assert_refused(&rt, rt.alloc(), LARGE.as_slice(), large_refusals())
}

/// Whether a variable is that of the small image.
fn is_small(variable: &Variable) -> bool {
    variable.name_length == 1
        && variable.function == Some(0)
        && variable.position == 38
        && matches!(variable.element, ElementType::I32)
        && matches!(variable.storage, Storage::Slot(4))
        && variable.count == 0
}

#[test]
fn the_small_image_says_what_it_was_made_of(rt: HostRuntime) -> Result<(), Fail> {
    let image = read(rt.alloc(), SMALL.as_slice())?;
    assert!(rt; image.mode == Mode::Slots && image.code.len() == N);
    let positions = [23, 38, 43, 50, 63];
    assert!(rt; image.places.len() == positions.len());
    for (place, position) in image.places.iter().zip(&positions) {
        assert!(rt; place.position == *position, "{position}");
    }
    assert!(rt; image.variables.len() == 1);
    for variable in &image.variables {
        assert!(rt; is_small(variable));
    }
    assert!(rt; image.names.as_slice() == b"mainx".as_slice());
    Ok(())
}

#[test]
fn the_first_place_of_the_small_image_is_lent(rt: HostRuntime) -> Result<(), Fail> {
    let lent = view(rt.alloc(), SMALL.as_slice())?;
    assert!(rt; lent.place_count() > 0);
    let place = lent.place(0);
    assert!(rt; place.position == 23 && place.line == 2 && place.function == 0);
    Ok(())
}

#[test]
fn what_is_cut_off_is_refused(rt: HostRuntime) -> Result<(), Fail> {
    let image = SMALL.as_slice();
    for length in 0..image.len() {
        let wanted = if length < 64 {
            ImageErr::Refused(Code::HEADER_SIZE, length)
        } else {
            ImageErr::Refused(Code::LENGTH, 8)
        };
        assert!(rt;
            refusal(rt.alloc(), &image[..length]) == Some(wanted),
            "{length}"
        );
        assert!(rt;
            refusal_of_view(rt.alloc(), &image[..length]) == Some(wanted),
            "{length}"
        );
    }
    Ok(())
}

#[test]
fn what_is_read_is_written_again(rt: HostRuntime) -> Result<(), Fail> {
    let larger = altered(rt.alloc(), SMALL.as_slice(), 4, 2)?;
    for bytes in [SMALL.as_slice(), &LARGE, &larger] {
        let image = read(rt.alloc(), bytes)?;
        let again = write(rt.alloc(), &image)?;
        assert!(rt; again.as_slice() == bytes);
    }
    let refused = ImageErr::Refused(Code::PLACES, 144).to_string(rt.alloc())?;
    assert!(rt; refused.as_str() == "image refused I07 offset 144");
    Ok(())
}

static SMALL_REFUSALS: [Row; 16] = [
    (0, 0x47424444, Code::MAGIC, 0), // the first byte
    (4, 3, Code::LENGTH, 8), // a version with longer rows
    (4, 4, Code::LENGTH, 8), // a version of the second map with longer rows
    (4, 5, Code::VERSION, 4), // a version with rows of calls
    (4, 9, Code::VERSION, 4), // no version
    (8, 378, Code::LENGTH, 8), // one byte more
    (12, 2, Code::HEADER_NUMBERS, 12), // the mode
    (60, 1, Code::HEADER_NUMBERS, 60), // the zero
    (64 + 4 * N, 0, Code::FUNCTIONS, 64 + 4 * N), // the length of the function's name
    (76 + 4 * N, 8, Code::FUNCTIONS, 76 + 4 * N), // its frame size
    (120 + 4 * N, 1, Code::PLACES, 120 + 4 * N), // the line of the third place
    (164 + 4 * N, 6, Code::OWNERS, 164 + 4 * N), // the owner of the first word
    (176 + 8 * N, 7, Code::VARIABLES, 176 + 8 * N), // the variable's type
    (196 + 8 * N, 0, Code::PAIRS_AND_ROWS, 196 + 8 * N), // where the first flow pair comes from
    (252 + 8 * N, 4, Code::PAIRS_AND_ROWS, 252 + 8 * N), // the verdict of the first visible row
    (320 + 8 * N, 0x20, Code::NODES_AND_NAMES, 320 + 8 * N), // the last name
];

fn small_refusals() -> &'static [Row] {
    &SMALL_REFUSALS
}

static LARGE_REFUSALS: [Row; 66] = [
    (112, 0, Code::FUNCTIONS, 112), // name length
    (116, 65532, Code::FUNCTIONS, 116), // first address
    (136, 65548, Code::FUNCTIONS, 136), // first address
    (120, 65540, Code::FUNCTIONS, 120), // end address
    (140, 65580, Code::FUNCTIONS, 140), // end behind the code
    (124, 0, Code::FUNCTIONS, 124), // frame
    (128, 0, Code::FUNCTIONS, 128), // entry place
    (148, 1, Code::FUNCTIONS, 148), // entry place
    (168, 10, Code::PLACES, 168), // position
    (156, 0, Code::PLACES, 156), // line
    (204, 1, Code::PLACES, 204), // line falls
    (240, 0, Code::PLACES, 240), // function
    (180, 65540, Code::PLACES, 180), // address
    (248, 1, Code::OWNERS, 248), // word of no function
    (264, 2, Code::OWNERS, 264), // place of the other function
    (276, 4, Code::OWNERS, 276), // not the place at the address
    (288, 64, Code::VARIABLES, 288), // name length
    (384, 0, Code::VARIABLES, 384), // no literal behind automatic ones
    (352, 0, Code::VARIABLES, 356), // nameless automatic one
    (388, 0xffffffff, Code::VARIABLES, 388), // static one behind automatic ones
    (392, 12, Code::VARIABLES, 392), // position
    (364, 7, Code::VARIABLES, 364), // element type
    (304, 1, Code::VARIABLES, 304), // storage of a static one
    (368, 0, Code::VARIABLES, 368), // storage
    (308, 0x003fffff, Code::VARIABLES, 308), // static address
    (4, 2, Code::VARIABLES, 308), // static address of the first map in a version of the second
    (372, 8, Code::VARIABLES, 372), // register
    (404, 32, Code::VARIABLES, 404), // slot
    (408, 1, Code::VARIABLES, 408), // count of a home
    (412, 1, Code::VARIABLES, 412), // zero
    (448, 0, Code::CHANGES, 448), // pass name length
    (452, 4, Code::CHANGES, 452), // kind
    (456, 0, Code::CHANGES, 456), // place
    (460, 5, Code::CHANGES, 460), // variable
    (464, 1, Code::CHANGES, 464), // zero
    (528, 0, Code::PAIRS_AND_ROWS, 528), // from
    (552, 3, Code::PAIRS_AND_ROWS, 552), // falls
    (532, 7, Code::PAIRS_AND_ROWS, 532), // to
    (556, 0, Code::PAIRS_AND_ROWS, 556), // to
    (564, 4, Code::PAIRS_AND_ROWS, 564), // not above
    (576, 0, Code::PAIRS_AND_ROWS, 576), // place
    (580, 5, Code::PAIRS_AND_ROWS, 580), // variable
    (584, 3, Code::PAIRS_AND_ROWS, 584), // falls
    (616, 0, Code::PAIRS_AND_ROWS, 616), // place
    (620, 5, Code::PAIRS_AND_ROWS, 620), // variable
    (600, 4, Code::PAIRS_AND_ROWS, 600), // verdict
    (604, 1, Code::PAIRS_AND_ROWS, 604), // change of a home
    (628, 5, Code::PAIRS_AND_ROWS, 628), // no change
    (608, 1, Code::PAIRS_AND_ROWS, 608), // a home has no start
    (632, 7, Code::PAIRS_AND_ROWS, 632), // start
    (656, 7, Code::PAIRS_AND_ROWS, 656), // node
    (636, 65540, Code::PAIRS_AND_ROWS, 636), // writer of a removed change
    (660, 1, Code::PAIRS_AND_ROWS, 660), // recovered has no writer
    (684, 0, Code::PAIRS_AND_ROWS, 684), // writer
    (712, 22, Code::NODES_AND_NAMES, 712), // operation
    (728, 4, Code::NODES_AND_NAMES, 728), // no home
    (720, 1, Code::NODES_AND_NAMES, 720), // second operand of a constant
    (740, 2, Code::NODES_AND_NAMES, 740), // operand not earlier
    (744, 2, Code::NODES_AND_NAMES, 744), // operand not earlier
    (764, 34, Code::NODES_AND_NAMES, 764), // home
    (764, 9, Code::NODES_AND_NAMES, 768), // equal nodes
    (780, 1, Code::NODES_AND_NAMES, 780), // second operand of a truncation
    (796, 0x69616d39, Code::NODES_AND_NAMES, 796), // digit first
    (797, 0x6e69612d, Code::NODES_AND_NAMES, 797), // no letter
    (801, 0x6c626132, Code::NODES_AND_NAMES, 801), // digit first
    (810, 0x6d64615f, Code::NODES_AND_NAMES, 810), // pass name
];

fn large_refusals() -> &'static [Row] {
    &LARGE_REFUSALS
}
