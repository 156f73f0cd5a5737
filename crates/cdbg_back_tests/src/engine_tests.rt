//! Sessions over two small images. Their lines were computed outside of this program; those of the addition can be
//! followed by hand.

ghost use Rattle.image_form.specs.Form.{form};
ghost use Rattle.image_form.specs.Rules.{IsImage};

use image_form::{Image, view, write};
use script_form::read;
use std::alloc::Global;
use std::process::Abort;
use std::test::Fail;
use stop_engine::{Engine, Halt, Shown, Stops};

mod images;

use images::{addition_image, calling_image};

/// A session over the image that calls.
struct Session {
    shows: &'static str,
    count: u32,
    call: u32,
    last: u32,
    limit: u64,
    orders: &'static [&'static str],
    lines: &'static [&'static str],
}

/// The lines of the commands of a script.
fn answer_all(
    alloc: Global,
    engine: &mut Engine<'_>,
    script: &str,
    lines: &mut Vec<Vec<u8>>,
) -> Result<(), Fail> {
    let Ok(commands) = read(alloc, script.as_bytes()) else {
        return Err(Fail::from("a script"));
    };
    for command in &commands {
        let mut answered = engine.answer(alloc, command)?;
        lines.append(&mut answered)?;
    }
    Ok(())
}

/// The lines of these orders over an image, with an empty input.
fn lines_of(alloc: Global, image: &Image, limit: u64, orders: &[&str]) -> Result<Vec<Vec<u8>>, Fail>
    requires { IsImage (form image.now) }
{
    let bytes = write(alloc, image)?;
    let view = view(alloc, &bytes)?;
    let mut engine = Engine::new(alloc, &view, &[], limit)?;
    let mut lines = Vec::new(alloc);
    for order in orders {
        answer_all(alloc, &mut engine, order, &mut lines)?;
    }
    Ok(lines)
}

/// The lines are those of a list.
fn assert_lines(rt: &impl Abort, lines: &[Vec<u8>], expected: &[&str], shows: &str) {
    let mut all = lines.iter().zip(expected);
    let are_same = lines.len() == expected.len()
        && all.all(|(line, text)| line.as_slice() == text.as_bytes());
    assert!(rt; are_same, "{shows}");
}

fn assert_session(rt: &impl Abort, alloc: Global, session: &Session) -> Result<(), Fail> {
    assert!(rt; session.count < 2048);
    assert!(rt; session.call < 2048);
    let image = calling_image(alloc, session.count, session.call, session.last)?;
    let lines = lines_of(alloc, &image, session.limit, session.orders)?;
    assert_lines(rt, &lines, session.lines, session.shows);
    Ok(())
}

#[test]
fn each_session_has_its_lines(rt: HostRuntime) -> Result<(), Fail> {
    for session in sessions() {
        assert_session(&rt, rt.alloc(), session)?;
    }
    Ok(())
}

/// Orders over the image that adds, and their lines.
static ADDITIONS: [(&[&str], &[&str]); 2] = [
    (
        &["step", "step", "print x", "step", "print x", "step", "step"],
        &[
            "at 2 line 2 main depth 1",
            "at 3 line 2 main depth 1",
            "x = 2",
            "at 4 line 2 main depth 1",
            "x = 5",
            "out \"A\"",
            "at 5 line 2 main depth 1",
            "exit 5",
        ],
    ),
    (
        &[
            "break main",
            "break nosuch",
            "continue",
            "where",
            "locals",
            "continue",
        ],
        &[
            "break at 2",
            "no function nosuch",
            "at 2 line 2 main depth 1",
            "#0 main line 2 place 2",
            "no locals",
            "out \"A\"",
            "exit 5",
        ],
    ),
];

fn additions() -> &'static [(&'static [&'static str], &'static [&'static str])] {
    &ADDITIONS
}

#[test]
fn the_addition_is_followed(rt: HostRuntime) -> Result<(), Fail> {
    let image = addition_image(rt.alloc())?;
    for (orders, expected) in additions() {
        let lines = lines_of(rt.alloc(), &image, 1000, *orders)?;
        assert_lines(&rt, &lines, *expected, "the addition");
    }
    Ok(())
}

/// The halts of the image that adds, from stop to stop, each with the bytes that were put out before it.
static HALTS: [(Halt, &[u8]); 6] = [
    (Halt::At { place: 2, depth: 1 }, b""),
    (Halt::At { place: 3, depth: 1 }, b""),
    (Halt::At { place: 4, depth: 1 }, b""),
    (Halt::At { place: 5, depth: 1 }, b"A"),
    (Halt::Exited(5), b""),
    (Halt::Exited(5), b""),
];

fn halts() -> &'static [(Halt, &'static [u8])] {
    &HALTS
}

#[test]
fn a_run_has_its_own_output(rt: HostRuntime) -> Result<(), Fail> {
    let image = addition_image(rt.alloc())?;
    let bytes = write(rt.alloc(), &image)?;
    let view = view(rt.alloc(), &bytes)?;
    let mut engine = Engine::new(rt.alloc(), &view, &[], 1000)?;
    assert!(rt; matches!(engine.show(rt.alloc(), "x")?, Shown::NoStop));
    for (halt, taken) in halts() {
        assert!(rt; engine.run_to(&Stops::Any)? == *halt);
        assert!(rt; engine.taken() == *taken);
    }
    Ok(())
}

static SESSIONS: [Session; 27] = [
    Session {
        shows: "next runs past a call",
        count: 2,
        call: 10,
        last: 0x73,
        limit: 1000,
        orders: &["next", "next", "next", "next", "next", "next", "next"],
        lines: &[
            "at 5 line 3 main depth 1",
            "at 6 line 4 main depth 1",
            "at 7 line 5 main depth 1",
            "at 8 line 6 main depth 1",
            "out \"AA\"",
            "at 9 line 7 main depth 1",
            "exit -5",
            "exit -5",
        ],
    },
    Session {
        shows: "next within a call, and out of it",
        count: 0,
        call: 10,
        last: 0x73,
        limit: 1000,
        orders: &["next", "next", "next", "step", "next", "next", "next"],
        lines: &[
            "at 5 line 3 main depth 1",
            "at 6 line 4 main depth 1",
            "at 7 line 5 main depth 1",
            "at 2 line 1 f depth 2",
            "at 3 line 2 f depth 2",
            "at 8 line 6 main depth 1",
            "at 9 line 7 main depth 1",
        ],
    },
    Session {
        shows: "next halts at a mark that is deeper",
        count: 0,
        call: 10,
        last: 0x73,
        limit: 1000,
        orders: &["break 2", "next", "next", "next", "next", "next", "next"],
        lines: &[
            "break at 3",
            "at 5 line 3 main depth 1",
            "at 6 line 4 main depth 1",
            "at 7 line 5 main depth 1",
            "at 3 line 2 f depth 2",
            "at 8 line 6 main depth 1",
            "at 9 line 7 main depth 1",
        ],
    },
    Session {
        shows: "finish runs out of a call, and from main to the end",
        count: 2,
        call: 10,
        last: 0x73,
        limit: 1000,
        orders: &[
            "finish", "break 1", "continue", "finish", "finish", "finish", "next", "step",
        ],
        lines: &[
            "no stop",
            "break at 2",
            "at 2 line 1 f depth 2",
            "at 8 line 6 main depth 1",
            "out \"AA\"",
            "exit -5",
            "exit -5",
            "exit -5",
            "exit -5",
        ],
    },
    Session {
        shows: "finish halts at marks, which are as deep or deeper",
        count: 2,
        call: 10,
        last: 0x73,
        limit: 1000,
        orders: &[
            "break 1", "break 2", "break 7", "step", "finish", "finish", "finish", "finish",
            "finish",
        ],
        lines: &[
            "break at 2",
            "break at 3",
            "break at 9",
            "at 5 line 3 main depth 1",
            "at 2 line 1 f depth 2",
            "at 3 line 2 f depth 2",
            "at 8 line 6 main depth 1",
            "out \"AA\"",
            "at 9 line 7 main depth 1",
            "exit -5",
        ],
    },
    Session {
        shows: "a limit ends next and finish",
        count: 0,
        call: 10,
        last: 0x73,
        limit: 9,
        orders: &["next", "next", "next", "finish", "next"],
        lines: &[
            "at 5 line 3 main depth 1",
            "at 6 line 4 main depth 1",
            "limit 9",
            "limit 9",
            "limit 9",
        ],
    },
    Session {
        shows: "a limit ends finish in the output",
        count: 3,
        call: 10,
        last: 0x73,
        limit: 29,
        orders: &["next", "finish", "next"],
        lines: &[
            "at 5 line 3 main depth 1",
            "out \"AA\"",
            "limit 29",
            "limit 29",
        ],
    },
    Session {
        shows: "prints before, at and behind stops",
        count: 2,
        call: 10,
        last: 0x73,
        limit: 1000,
        orders: &[
            "print x", "step", "print x", "step", "print x", "print y", "print z", "step",
            "print x", "step", "print x", "step", "print x", "print y", "step", "step", "print y",
            "step", "print x", "step", "step",
        ],
        lines: &[
            "no stop",
            "at 5 line 3 main depth 1",
            "no x here",
            "at 6 line 4 main depth 1",
            "x = 9",
            "no y here",
            "no z here",
            "at 7 line 5 main depth 1",
            "x = 9",
            "at 2 line 1 f depth 2",
            "no x here",
            "at 3 line 2 f depth 2",
            "x = 3",
            "no y here",
            "at 8 line 6 main depth 1",
            "out \"AA\"",
            "at 9 line 7 main depth 1",
            "y = -5",
            "exit -5",
            "no stop",
            "exit -5",
            "exit -5",
        ],
    },
    Session {
        shows: "no output",
        count: 0,
        call: 10,
        last: 0x73,
        limit: 1000,
        orders: &[
            "step", "step", "step", "step", "step", "step", "step", "step",
        ],
        lines: &[
            "at 5 line 3 main depth 1",
            "at 6 line 4 main depth 1",
            "at 7 line 5 main depth 1",
            "at 2 line 1 f depth 2",
            "at 3 line 2 f depth 2",
            "at 8 line 6 main depth 1",
            "at 9 line 7 main depth 1",
            "exit -5",
        ],
    },
    Session {
        shows: "one byte",
        count: 1,
        call: 10,
        last: 0x73,
        limit: 1000,
        orders: &[
            "step", "step", "step", "step", "step", "step", "step", "step",
        ],
        lines: &[
            "at 5 line 3 main depth 1",
            "at 6 line 4 main depth 1",
            "at 7 line 5 main depth 1",
            "at 2 line 1 f depth 2",
            "at 3 line 2 f depth 2",
            "at 8 line 6 main depth 1",
            "out \"A\"",
            "at 9 line 7 main depth 1",
            "exit -5",
        ],
    },
    Session {
        shows: "64 bytes",
        count: 64,
        call: 10,
        last: 0x73,
        limit: 1000,
        orders: &[
            "step", "step", "step", "step", "step", "step", "step", "step",
        ],
        lines: &[
            "at 5 line 3 main depth 1",
            "at 6 line 4 main depth 1",
            "at 7 line 5 main depth 1",
            "at 2 line 1 f depth 2",
            "at 3 line 2 f depth 2",
            "at 8 line 6 main depth 1",
            "out \"AAAAAAAAAAAAAAAAAAAAAAAAAAAAAAAAAAAAAAAAAAAAAAAAAAAAAAAAAAAAAAAA\"",
            "at 9 line 7 main depth 1",
            "exit -5",
        ],
    },
    Session {
        shows: "65 bytes",
        count: 65,
        call: 10,
        last: 0x73,
        limit: 1000,
        orders: &[
            "step", "step", "step", "step", "step", "step", "step", "step",
        ],
        lines: &[
            "at 5 line 3 main depth 1",
            "at 6 line 4 main depth 1",
            "at 7 line 5 main depth 1",
            "at 2 line 1 f depth 2",
            "at 3 line 2 f depth 2",
            "at 8 line 6 main depth 1",
            "out \"AAAAAAAAAAAAAAAAAAAAAAAAAAAAAAAAAAAAAAAAAAAAAAAAAAAAAAAAAAAAAAAA\"",
            "out \"A\"",
            "at 9 line 7 main depth 1",
            "exit -5",
        ],
    },
    Session {
        shows: "130 bytes",
        count: 130,
        call: 10,
        last: 0x73,
        limit: 1000,
        orders: &[
            "step", "step", "step", "step", "step", "step", "step", "step", "step",
        ],
        lines: &[
            "at 5 line 3 main depth 1",
            "at 6 line 4 main depth 1",
            "at 7 line 5 main depth 1",
            "at 2 line 1 f depth 2",
            "at 3 line 2 f depth 2",
            "at 8 line 6 main depth 1",
            "out \"AAAAAAAAAAAAAAAAAAAAAAAAAAAAAAAAAAAAAAAAAAAAAAAAAAAAAAAAAAAAAAAA\"",
            "out \"AAAAAAAAAAAAAAAAAAAAAAAAAAAAAAAAAAAAAAAAAAAAAAAAAAAAAAAAAAAAAAAA\"",
            "out \"AA\"",
            "at 9 line 7 main depth 1",
            "exit -5",
            "exit -5",
        ],
    },
    Session {
        shows: "no instruction",
        count: 0,
        call: 10,
        last: 0x73,
        limit: 0,
        orders: &["print x", "step", "step"],
        lines: &["no stop", "limit 0", "limit 0"],
    },
    Session {
        shows: "too few for a stop",
        count: 0,
        call: 10,
        last: 0x73,
        limit: 5,
        orders: &["step", "step"],
        lines: &["limit 5", "limit 5"],
    },
    Session {
        shows: "just enough for a stop",
        count: 0,
        call: 10,
        last: 0x73,
        limit: 6,
        orders: &["step", "step", "step"],
        lines: &["at 5 line 3 main depth 1", "limit 6", "limit 6"],
    },
    Session {
        shows: "a limit between two stops",
        count: 0,
        call: 10,
        last: 0x73,
        limit: 9,
        orders: &["step", "step", "step", "step"],
        lines: &[
            "at 5 line 3 main depth 1",
            "at 6 line 4 main depth 1",
            "limit 9",
            "limit 9",
        ],
    },
    Session {
        shows: "a limit in the output",
        count: 3,
        call: 10,
        last: 0x73,
        limit: 29,
        orders: &[
            "step", "step", "step", "step", "step", "step", "step", "step",
        ],
        lines: &[
            "at 5 line 3 main depth 1",
            "at 6 line 4 main depth 1",
            "at 7 line 5 main depth 1",
            "at 2 line 1 f depth 2",
            "at 3 line 2 f depth 2",
            "at 8 line 6 main depth 1",
            "out \"AA\"",
            "limit 29",
            "limit 29",
        ],
    },
    Session {
        shows: "just enough for the end",
        count: 0,
        call: 10,
        last: 0x73,
        limit: 28,
        orders: &[
            "step", "step", "step", "step", "step", "step", "step", "step",
        ],
        lines: &[
            "at 5 line 3 main depth 1",
            "at 6 line 4 main depth 1",
            "at 7 line 5 main depth 1",
            "at 2 line 1 f depth 2",
            "at 3 line 2 f depth 2",
            "at 8 line 6 main depth 1",
            "at 9 line 7 main depth 1",
            "exit -5",
        ],
    },
    Session {
        shows: "one too few for the end",
        count: 0,
        call: 10,
        last: 0x73,
        limit: 27,
        orders: &[
            "step", "step", "step", "step", "step", "step", "step", "step",
        ],
        lines: &[
            "at 5 line 3 main depth 1",
            "at 6 line 4 main depth 1",
            "at 7 line 5 main depth 1",
            "at 2 line 1 f depth 2",
            "at 3 line 2 f depth 2",
            "at 8 line 6 main depth 1",
            "at 9 line 7 main depth 1",
            "exit -5",
        ],
    },
    Session {
        shows: "a depth that ends",
        count: 0,
        call: 3,
        last: 0x73,
        limit: 1000,
        orders: &[
            "step", "step", "step", "step", "step", "step", "step", "step", "step",
        ],
        lines: &[
            "at 5 line 3 main depth 1",
            "at 6 line 4 main depth 1",
            "at 7 line 5 main depth 1",
            "at 2 line 1 f depth 2",
            "at 3 line 2 f depth 2",
            "at 8 line 6 main depth 1",
            "at 9 line 7 main depth 1",
            "depth",
            "depth",
        ],
    },
    Session {
        shows: "an unknown call",
        count: 0,
        call: 5,
        last: 0x73,
        limit: 1000,
        orders: &[
            "step", "step", "step", "step", "step", "step", "step", "step", "step",
        ],
        lines: &[
            "at 5 line 3 main depth 1",
            "at 6 line 4 main depth 1",
            "at 7 line 5 main depth 1",
            "at 2 line 1 f depth 2",
            "at 3 line 2 f depth 2",
            "at 8 line 6 main depth 1",
            "at 9 line 7 main depth 1",
            "fault 0x00010074",
            "fault 0x00010074",
        ],
    },
    Session {
        shows: "a word that is no instruction",
        count: 0,
        call: 10,
        last: 0x0,
        limit: 1000,
        orders: &[
            "step", "print y", "step", "print y", "step", "print y", "step", "print y", "step",
            "print y", "step", "print y", "step", "print y", "step", "print y", "step", "print y",
        ],
        lines: &[
            "at 5 line 3 main depth 1",
            "no y here",
            "at 6 line 4 main depth 1",
            "no y here",
            "at 7 line 5 main depth 1",
            "y = -5",
            "at 2 line 1 f depth 2",
            "no y here",
            "at 3 line 2 f depth 2",
            "no y here",
            "at 8 line 6 main depth 1",
            "y = -5",
            "at 9 line 7 main depth 1",
            "y = -5",
            "fault 0x00010074",
            "no stop",
            "fault 0x00010074",
            "no stop",
        ],
    },
    Session {
        shows: "marked stops, activations and variables",
        count: 2,
        call: 10,
        last: 0x73,
        limit: 1000,
        orders: &[
            "where", "locals", "break 1", "break 2", "break 99", "break f", "continue", "where",
            "locals", "continue", "where", "print x", "locals", "step", "where", "continue",
            "continue", "locals", "where",
        ],
        lines: &[
            "no stop",
            "no stop",
            "break at 2",
            "break at 3",
            "no place on line 99",
            "no function f",
            "at 2 line 1 f depth 2",
            "#0 f line 1 place 2",
            "no locals",
            "at 3 line 2 f depth 2",
            "#0 f line 2 place 3",
            "x = 3",
            "x = 3",
            "at 8 line 6 main depth 1",
            "#0 main line 6 place 8",
            "out \"AA\"",
            "exit -5",
            "exit -5",
            "no stop",
            "no stop",
        ],
    },
    Session {
        shows: "nothing behind a quit",
        count: 2,
        call: 10,
        last: 0x73,
        limit: 1000,
        orders: &[
            "break 6", "break 6", "continue", "locals", "quit", "step", "print y", "break 5",
            "where",
        ],
        lines: &[
            "break at 8",
            "break at 8",
            "at 8 line 6 main depth 1",
            "x = 9",
            "y = -5",
        ],
    },
    Session {
        shows: "an ending again",
        count: 2,
        call: 10,
        last: 0x73,
        limit: 1000,
        orders: &["continue", "break 7", "continue", "where"],
        lines: &["out \"AA\"", "exit -5", "break at 9", "exit -5", "no stop"],
    },
    Session {
        shows: "output of stops that are passed by",
        count: 2,
        call: 10,
        last: 0x73,
        limit: 1000,
        orders: &[
            "break 7", "continue", "locals", "continue", "continue", "where",
        ],
        lines: &[
            "break at 9",
            "out \"AA\"",
            "at 9 line 7 main depth 1",
            "x = 9",
            "y = -5",
            "exit -5",
            "exit -5",
            "no stop",
        ],
    },
];

fn sessions() -> &'static [Session] {
    &SESSIONS
}
