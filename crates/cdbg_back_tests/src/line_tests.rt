//! The lines of a transcript and the texts of a status. What they must be was written down before the program was:
//! lines that a user reads.

use debug_records::{Code, Kind, Place};
use line_form::{
    Status, array_text, break_line, change_line, change_text, depth_line, end_line, exit_line,
    fault_line, fault_text, frame_line, frame_pointer, limit_line, literal_pointer,
    no_function_line, no_locals_line, no_place_line, no_stop_line, noncurrent_line,
    nonresident_line, nothing_here_line, null_text, out_lines, recovered_line, static_pointer,
    stop_line, unknown_pointer, value_line,
};
use std::alloc::{AllocError, Global};
use std::test::Fail;

/// A line of a transcript, by what it says.
enum Line {
    Stop(u32, u32, &'static [u8], u32),
    Exit(i32),
    Fault(u32),
    Depth,
    Limit(u64),
    Value(&'static [u8], &'static [u8]),
    NothingHere(&'static [u8]),
    NoStop,
    Break(&'static [Place]),
    NoPlace(u32),
    NoFunction(&'static [u8]),
    NoLocals,
    Frame(u32, &'static [u8], u32, u32),
    Change(u32, &'static [u8], Kind, &'static [u8], u32),
    Recovered(&'static [u8], &'static [u8], &'static [u8]),
    Noncurrent(&'static [u8], &'static [u8], &'static [Place]),
    Nonresident(&'static [u8], &'static [u8], &'static [Place]),
}

/// The bytes of a line.
fn line_of(alloc: Global, line: &Line) -> Result<Vec<u8>, AllocError> {
    match line {
        Line::Stop(place, line, name, depth) => stop_line(alloc, *place, *line, *name, *depth),
        Line::Exit(value) => exit_line(alloc, *value),
        Line::Fault(address) => fault_line(alloc, *address),
        Line::Depth => depth_line(alloc),
        Line::Limit(count) => limit_line(alloc, *count),
        Line::Value(name, value) => value_line(alloc, *name, *value),
        Line::NothingHere(name) => nothing_here_line(alloc, *name),
        Line::NoStop => no_stop_line(alloc),
        Line::Break(places) => break_line(alloc, *places),
        Line::NoPlace(line) => no_place_line(alloc, *line),
        Line::NoFunction(name) => no_function_line(alloc, *name),
        Line::NoLocals => no_locals_line(alloc),
        Line::Frame(number, name, line, place) => {
            frame_line(alloc, *number, *name, *line, *place)
        }
        Line::Change(number, pass, kind, name, place) => {
            change_line(alloc, *number, *pass, *kind, *name, *place)
        }
        Line::Recovered(name, value, change) => recovered_line(alloc, *name, *value, *change),
        Line::Noncurrent(name, change, path) => noncurrent_line(alloc, *name, *change, *path),
        Line::Nonresident(name, change, path) => nonresident_line(alloc, *name, *change, *path),
    }
}

static LINES: [(Line, &str); 26] = [
    (Line::Stop(2, 2, b"main", 1), "at 2 line 2 main depth 1"),
    (
        Line::Stop(4294967295, 10, b"f", 1024),
        "at 4294967295 line 10 f depth 1024",
    ),
    (Line::Exit(5), "exit 5"),
    (Line::Exit(0), "exit 0"),
    (Line::Exit(-1), "exit -1"),
    (Line::Exit(2147483647), "exit 2147483647"),
    (Line::Exit(-2147483648), "exit -2147483648"),
    (Line::Fault(0), "fault 0x00000000"),
    (Line::Fault(0x10000), "fault 0x00010000"),
    (Line::Fault(0xdeadbeef), "fault 0xdeadbeef"),
    (Line::Depth, "depth"),
    (Line::Limit(100), "limit 100"),
    (
        Line::Limit(18446744073709551615),
        "limit 18446744073709551615",
    ),
    (Line::Value(b"x", b"-2"), "x = -2"),
    (Line::NothingHere(b"h"), "no h here"),
    (Line::NoStop, "no stop"),
    (Line::Break(&[Place(3), Place(12)]), "break at 3 12"),
    (Line::NoPlace(999), "no place on line 999"),
    (Line::NoFunction(b"f"), "no function f"),
    (Line::NoLocals, "no locals"),
    (Line::Frame(1, b"main", 7, 9), "#1 main line 7 place 9"),
    (
        Line::Change(1, b"motion", Kind::Moved, b"x", 4),
        "1 motion moved x 4",
    ),
    (
        Line::Change(3, b"copy", Kind::Replaced, b"y", 8),
        "3 copy replaced y 8",
    ),
    (
        Line::Recovered(b"x", b"-2", b"3 dead removed 8"),
        "x = -2 (recovered: 3 dead removed 8)",
    ),
    (
        Line::Noncurrent(b"x", b"3 dead removed 8", &[Place(8), Place(9)]),
        "x noncurrent: 3 dead removed 8, path 8 9",
    ),
    (
        Line::Nonresident(b"x", b"3 dead removed 8", &[]),
        "x nonresident: 3 dead removed 8, path none",
    ),
];

fn lines() -> &'static [(Line, &'static str)] {
    &LINES
}

#[test]
fn each_line_says_what_it_should(rt: HostRuntime) -> Result<(), Fail> {
    for (line, text) in lines() {
        let found = line_of(rt.alloc(), line)?;
        assert!(rt; found.as_slice() == text.as_bytes(), "{text}");
    }
    Ok(())
}

/// A part of a line, by what it says.
enum Part {
    Change(u32, &'static [u8], Kind, u32),
    Null,
    Static(&'static [u8], u32),
    Literal(u32, u32),
    InFrame(&'static [u8], u32, u32),
    Unknown(u32),
    Array(&'static [&'static [u8]], bool),
}

/// The bytes of an array's elements.
fn array_of(alloc: Global, elements: &[&[u8]], more: bool) -> Result<Vec<u8>, AllocError> {
    let mut values = Vec::new(alloc);
    for element in elements {
        values.push(Vec::from_slice(alloc, *element)?)?;
    }
    array_text(alloc, &values, more)
}

/// The bytes of a part.
fn part_of(alloc: Global, part: &Part) -> Result<Vec<u8>, AllocError> {
    match part {
        Part::Change(number, pass, kind, place) => {
            change_text(alloc, *number, *pass, *kind, *place)
        }
        Part::Null => null_text(alloc),
        Part::Static(name, offset) => static_pointer(alloc, *name, *offset),
        Part::Literal(number, offset) => literal_pointer(alloc, *number, *offset),
        Part::InFrame(name, depth, offset) => frame_pointer(alloc, *name, *depth, *offset),
        Part::Unknown(address) => unknown_pointer(alloc, *address),
        Part::Array(elements, more) => array_of(alloc, *elements, *more),
    }
}

static PARTS: [(Part, &str); 8] = [
    (
        Part::Change(3, b"dead", Kind::Removed, 8),
        "3 dead removed 8",
    ),
    (Part::Null, "null"),
    (Part::Static(b"g", 4), "&g+4"),
    (Part::Literal(2, 0), "&#2+0"),
    (Part::InFrame(b"a", 3, 8), "&a@3+8"),
    (Part::Unknown(0x400), "?0x00000400"),
    (Part::Array(&[b"1", b"-2"], false), "{1, -2}"),
    (Part::Array(&[b"1", b"-2"], true), "{1, -2, ...}"),
];

fn parts() -> &'static [(Part, &'static str)] {
    &PARTS
}

#[test]
fn each_part_says_what_it_should(rt: HostRuntime) -> Result<(), Fail> {
    for (part, text) in parts() {
        let found = part_of(rt.alloc(), part)?;
        assert!(rt; found.as_slice() == text.as_bytes(), "{text}");
    }
    Ok(())
}

/// The lines of an output of each byte once, and of one more.
static ALL_BYTES: [&str; 5] = [
    r##"out "\x00\x01\x02\x03\x04\x05\x06\x07\x08\x09\x0a\x0b\x0c\x0d\x0e\x0f\x10\x11\x12\x13\x14\x15\x16\x17\x18\x19\x1a\x1b\x1c\x1d\x1e\x1f !\"#$%&'()*+,-./0123456789:;<=>?""##,
    r##"out "@ABCDEFGHIJKLMNOPQRSTUVWXYZ[\\]^_`abcdefghijklmnopqrstuvwxyz{|}~\x7f""##,
    r##"out "\x80\x81\x82\x83\x84\x85\x86\x87\x88\x89\x8a\x8b\x8c\x8d\x8e\x8f\x90\x91\x92\x93\x94\x95\x96\x97\x98\x99\x9a\x9b\x9c\x9d\x9e\x9f\xa0\xa1\xa2\xa3\xa4\xa5\xa6\xa7\xa8\xa9\xaa\xab\xac\xad\xae\xaf\xb0\xb1\xb2\xb3\xb4\xb5\xb6\xb7\xb8\xb9\xba\xbb\xbc\xbd\xbe\xbf""##,
    r##"out "\xc0\xc1\xc2\xc3\xc4\xc5\xc6\xc7\xc8\xc9\xca\xcb\xcc\xcd\xce\xcf\xd0\xd1\xd2\xd3\xd4\xd5\xd6\xd7\xd8\xd9\xda\xdb\xdc\xdd\xde\xdf\xe0\xe1\xe2\xe3\xe4\xe5\xe6\xe7\xe8\xe9\xea\xeb\xec\xed\xee\xef\xf0\xf1\xf2\xf3\xf4\xf5\xf6\xf7\xf8\xf9\xfa\xfb\xfc\xfd\xfe\xff""##,
    r##"out "A""##,
];

fn all_bytes() -> &'static [&'static str] {
    &ALL_BYTES
}

#[test]
fn each_byte_of_the_output_is_quoted(rt: HostRuntime) -> Result<(), Fail> {
    let mut output = Vec::new(rt.alloc());
    for byte in 0..=255u8 {
        output.push(byte)?;
    }
    output.push(b'A')?;
    let lines = out_lines(rt.alloc(), &output)?;
    assert!(rt; lines.len() == all_bytes().len());
    for (line, text) in lines.iter().zip(all_bytes()) {
        assert!(rt; line.as_slice() == text.as_bytes(), "{text}");
    }
    assert!(rt; out_lines(rt.alloc(), b"")?.is_empty());
    let mut text = no_stop_line(rt.alloc())?;
    end_line(&mut text)?;
    assert!(rt; text.as_slice() == b"no stop\n".as_slice());
    Ok(())
}

#[test]
fn statuses_have_numbers_and_texts(rt: HostRuntime) -> Result<(), Fail> {
    let cases = [
        (Status::Done, 0, ""),
        (Status::Usage, 2, "cdbg: usage"),
        (
            Status::SourceRefused(Code::NO_MAIN, 1),
            3,
            "cdbg: source refused E29 line 1",
        ),
        (
            Status::SourceRefused(Code::UNEXPECTED_KEYWORD, 4294967295),
            3,
            "cdbg: source refused E11 line 4294967295",
        ),
        (
            Status::ScriptRefused(Code::UNKNOWN_COMMAND, 1),
            4,
            "cdbg: script refused S01 line 1",
        ),
        (Status::ReadFault, 5, "cdbg: read failed"),
        (Status::WriteFault, 6, "cdbg: write failed"),
        (Status::NoMemory, 7, "cdbg: out of memory"),
        (
            Status::ImageRefused(Code::LENGTH, 8),
            8,
            "cdbg: image refused I04 offset 8",
        ),
        (
            Status::TooLong(String::from_str(rt.alloc(), "a script")?),
            9,
            "cdbg: too long a script",
        ),
    ];
    for (status, number, text) in cases {
        let found = fault_text(rt.alloc(), &status)?;
        assert!(rt;
            status.number() == number && found.as_str() == text,
            "{text}"
        );
    }
    Ok(())
}
