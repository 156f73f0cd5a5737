//! Sessions of sources that passes have optimised, and the jobs that speak of passes.

use super::programs::{DIVISION, ON_ONE_WAY};
use super::sessions::{
    Session, assert_each, assert_refused, assert_said, assert_session, ended, image_prints, prints,
    shelf,
};
use std::alloc::{AllocError, Global};
use std::test::Fail;

/// Copies, and assignments that nothing reads.
const COPIED: &[u8] =
    b"#include <stdio.h>\nint main(void){\nint y=getchar();\nint x=0;\nint z=0;\nx=y;\nz=x+1;\nputchar(z);\ny=7;\nputchar(y);\nreturn 0;\n}\n";

/// A sum that is done on one of two ways, and again where they meet.
const SUM_ON_ONE_WAY: &[u8] =
    b"#include <stdio.h>\nint main(void){int a=getchar(); int b=getchar(); int x=0; int y=0; if(a>60) x=a+b; else y=1; y=a+b; return x+y;}\n";

/// A session that shows a variable before and behind the removals of its assignments.
static BETWEEN_REMOVALS: Session = Session {
    shows: "removed values are recovered until what they were copied from changes",
    source: COPIED,
    script: b"break 6\ncontinue\nprint x\nstep\nprint x\nbreak 10\ncontinue\nlocals\n",
    input: b"C",
    printed: b"break at 5\nat 5 line 6 main depth 1\nx = 0 (recovered: 2 dead removed 3)\nat 6 line 7 main depth 1\nx = 67 (recovered: 4 dead removed 5)\nbreak at 9\nout \"D\"\nat 9 line 10 main depth 1\ny = 7\nx noncurrent: 4 dead removed 5, path 5 6 7 8 9\nz = 68\n",
};

fn between_removals() -> &'static Session {
    &BETWEEN_REMOVALS
}

/// What sessions print, by the words of each.
static BEHIND_PASSES: [(&str, Session); 8] = [
    (
        "cdbg debug --passes copy --homes slots program.c script input image",
        Session {
            shows: "a copy that is read no more leaves its variable as it was",
            source: COPIED,
            script: b"break 6\ncontinue\nprint x\n",
            input: b"C",
            printed: b"break at 5\nat 5 line 6 main depth 1\nx = 0\n",
        },
    ),
    (
        "cdbg debug --passes dead --homes slots program.c script input image",
        Session {
            shows: "a removed assignment of a loop hides its variable in each turn",
            source: b"#include <stdio.h>\nint main(void){\nint x=getchar();\nputchar(x);\nint i=0;\nwhile(i<2){\nx=getchar();\ni=i+1;\n}\nreturn i;\n}\n",
            script: b"break 7\ncontinue\nprint x\ncontinue\nprint x\n",
            input: b"ABC",
            printed: b"break at 6\nout \"A\"\nat 6 line 7 main depth 1\nx suspect: 1 dead removed 6, path 6 7 5 6, current path 2 3 4 5 6\nat 6 line 7 main depth 1\nx suspect: 1 dead removed 6, path 6 7 5 6, current path 2 3 4 5 6\n",
        },
    ),
    (
        "cdbg debug --passes dead --homes slots program.c script input image",
        Session {
            shows: "a variable is hidden behind a removal on one way",
            source: ON_ONE_WAY,
            script: b"break 5\ncontinue\nprint x\nbreak 11\ncontinue\nprint x\n",
            input: b"A",
            printed: b"break at 5\nat 5 line 5 main depth 1\nx = 1 (recovered: 1 dead removed 4)\nbreak at 9\nat 9 line 11 main depth 1\nx suspect: 2 dead removed 6, path 6 9, current path 7 8 9\n",
        },
    ),
    (
        "cdbg debug --passes dead --homes slots program.c script input image",
        Session {
            shows: "the other way shows the variable until they meet",
            source: ON_ONE_WAY,
            script: b"break f\ncontinue\nwhere\nbreak 9\ncontinue\nprint x\nstep\nprint x\n",
            input: b"BZ",
            printed: b"break at 2\nat 2 line 2 f depth 2\n#0 f line 2 place 2\n#1 main line 8 place 7\nbreak at 8\nat 8 line 9 main depth 1\nx = 90\nout \"Z\"\nat 9 line 11 main depth 1\nx suspect: 2 dead removed 6, path 6 9, current path 7 8 9\n",
        },
    ),
    (
        "cdbg debug --passes motion --homes registers program.c script input image",
        Session {
            shows: "a moved product hides its variable before its assignment",
            source: b"#include <stdio.h>\nint main(void){\nint a=getchar();\nint b=getchar();\nint x=1;\nputchar(x);\nint i=0;\ndo{\nx=a*b;\nputchar(x);\ni=i+1;\n}while(i<2);\nreturn x;\n}\n",
            script: b"break 9\ncontinue\nprint x\nstep\nprint x\ncontinue\nprint x\n",
            input: b"\x02\x03",
            printed: b"break at 7\nout \"\\x01\"\nat 7 line 9 main depth 1\nx suspect: 1 motion moved 7, path 4 5 6 7, current path 7 8 9 10 7\nat 8 line 10 main depth 1\nx = 6\nout \"\\x06\"\nat 7 line 9 main depth 1\nx suspect: 1 motion moved 7, path 4 5 6 7, current path 7 8 9 10 7\n",
        },
    ),
    (
        "cdbg debug --passes dead --homes slots program.c script input image",
        Session {
            shows: "a call stays where what it gives is dead",
            source: b"#include <stdio.h>\nint main(void){int x=putchar(65); return 0;}\n",
            script: b"step\nstep\nprint x\n",
            input: b"",
            printed: b"at 2 line 2 main depth 1\nout \"A\"\nat 3 line 2 main depth 1\nx noncurrent: 1 dead removed 2, path 2 3\n",
        },
    ),
    (
        "cdbg debug --passes motion program.c script input image",
        Session {
            shows: "a moved division gives what it gave",
            source: DIVISION,
            script: b"continue\n",
            input: b"4",
            printed: b"out \"22\"\nexit 2\n",
        },
    ),
    (
        "cdbg debug --passes motion program.c script input image",
        Session {
            shows: "a moved division by zero does not trap",
            source: DIVISION,
            script: b"continue\n",
            input: b"0",
            printed: b"exit 3\n",
        },
    ),
];

fn behind_passes() -> &'static [(&'static str, Session)] {
    &BEHIND_PASSES
}

#[test]
fn sources_are_debugged_behind_passes(rt: HostRuntime) -> Result<(), Fail> {
    assert_each(&rt, rt.alloc(), behind_passes())?;
    Ok(())
}

#[test]
fn values_are_shown_between_the_removals_of_two_passes(rt: HostRuntime) -> Result<(), Fail> {
    let words = "cdbg debug --passes copy,dead --homes slots program.c script input image";
    assert_session(&rt, rt.alloc(), words, between_removals())?;
    Ok(())
}

#[test]
fn the_changes_of_passes_are_listed(rt: HostRuntime) -> Result<(), Fail> {
    let both = "cdbg passes --passes copy,dead program.c";
    let removed =
        b"1 copy replaced x 6\n2 dead removed x 3\n3 dead removed z 4\n4 dead removed x 5\n".as_slice();
    assert_said(&rt, rt.alloc(), both, COPIED, removed)?;
    let copy = "cdbg passes --passes copy program.c";
    let copied = b"1 copy replaced x 6\n".as_slice();
    assert_said(&rt, rt.alloc(), copy, COPIED, copied)?;
    let none = "cdbg passes --passes none program.c";
    assert_said(&rt, rt.alloc(), none, COPIED, b"".as_slice())?;
    Ok(())
}

#[test]
fn the_moved_computations_are_listed(rt: HostRuntime) -> Result<(), Fail> {
    let words = "cdbg passes --passes motion program.c";
    let moved = b"1 motion moved x 7\n2 motion moved y 9\n".as_slice();
    assert_said(&rt, rt.alloc(), words, SUM_ON_ONE_WAY, moved)?;
    Ok(())
}

#[test]
fn a_run_is_summed(rt: HostRuntime) -> Result<(), Fail> {
    let printed =
        b"seed 7 size 1\nstops 14\npairs 55 home 54 recovered 0 noncurrent 0 nonresident 1\nout 1\nexit 0\n".as_slice();
    assert_said(&rt, rt.alloc(), "cdbg sweep 7 1", b"".as_slice(), printed)?;
    Ok(())
}

/// The numbers that stand in a text, in order.
fn numbers_in(alloc: Global, text: &[u8]) -> Result<Vec<u32>, AllocError> {
    let mut numbers = Vec::new(alloc);
    for word in text.split(|byte| !byte.is_ascii_digit()) {
        if !word.is_empty() {
            let number = word.iter().fold(0u32, |number, digit| {
                number
                    .wrapping_mul(10)
                    .wrapping_add(u32::from(digit.wrapping_sub(b'0')))
            });
            numbers.push(number)?;
        }
    }
    Ok(numbers)
}

/// What `sweep 7 400` puts out.
fn large_sweep(alloc: Global) -> Result<Vec<u8>, AllocError> {
    let mut shelf = shelf(alloc, b"".as_slice(), b"".as_slice(), b"".as_slice())?;
    Ok(ended(alloc, "cdbg sweep 7 400", &mut shelf, [].as_slice())?.taken)
}

#[test]
fn the_parts_of_a_large_run_add_up(rt: HostRuntime) -> Result<(), Fail> {
    let printed = large_sweep(rt.alloc())?;
    let numbers = numbers_in(rt.alloc(), &printed)?;
    let [
        seed,
        size,
        stops,
        pairs,
        home,
        recovered,
        noncurrent,
        nonresident,
        out,
        status,
    ] = numbers.as_slice()
    else {
        return Err(Fail::from("ten numbers"));
    };
    assert!(rt; *seed == 7 && *size == 400 && *stops == 812 && *pairs == 4045);
    let shown = home.wrapping_add(*recovered);
    let hidden = noncurrent.wrapping_add(*nonresident);
    assert!(rt; shown.wrapping_add(hidden) == 4045 && *out == 1 && *status == 0);
    assert!(rt; printed.as_slice() == large_sweep(rt.alloc())?.as_slice());
    Ok(())
}

#[test]
fn a_pass_that_is_not_handed_in_is_no_job(rt: HostRuntime) -> Result<(), Fail> {
    let mut shelf = shelf(rt.alloc(), COPIED, b"".as_slice(), b"".as_slice())?;
    let words = "cdbg debug --passes copy,nosuch program.c script input image";
    let ended = ended(rt.alloc(), words, &mut shelf, [].as_slice())?;
    assert_refused(&rt, rt.alloc(), &ended, 2, "cdbg: usage")?;
    Ok(())
}

#[test]
fn the_image_of_an_optimised_program_is_attached(rt: HostRuntime) -> Result<(), Fail> {
    let session = between_removals();
    let mut shelf = shelf(rt.alloc(), session.source, session.script, session.input)?;
    let words = "cdbg compile --passes copy,dead --homes slots program.c image";
    assert!(rt; prints(rt.alloc(), words, &mut shelf, b"".as_slice())?);
    assert!(rt; image_prints(rt.alloc(), &mut shelf, session.printed)?);
    Ok(())
}
