//! Sessions of sources that are compiled by no pass.

use super::attaching::count_of_lines;
use super::sessions::{
    IN_SLOTS, Session, assert_all, assert_refused, ended, image_prints, prints, shelf,
};
use super::{PROGRAM, SCRIPT, TRANSCRIPT, number_at};
use line_form::Status;
use std::alloc::{AllocError, Global};
use std::process::Abort;
use std::test::Fail;

const IN_REGISTERS: &str =
    "cdbg debug --passes none --homes registers program.c script input image";

const BY_DEFAULT: &str = "cdbg debug program.c script input image";

const COMPILED: &str = "cdbg compile --passes none program.c image";

/// A division that a call before it may keep from being reached.
pub(super) const DIVISION: &[u8] =
    b"#include <stdio.h>\n#include <stdlib.h>\nvoid g(int b){if(b==0)exit(3);}\nint main(void){\nint a=8;\nint b=getchar()-48;\nint x=0;\nint i=0;\ndo{\ng(b);\nx=a/b;\nputchar(48+x);\ni=i+1;\n}while(i<2);\nreturn x;\n}\n";

/// An assignment on one of two ways, and a call with output behind it on the other.
pub(super) const ON_ONE_WAY: &[u8] =
    b"#include <stdio.h>\nint f(void){return getchar();}\nint main(void){\nint x=1;\nif(getchar()==65)\nx=5;\nelse{\nx=f();\nputchar(x);\n}\nputchar(66);\nreturn 0;\n}\n";

/// Two calls in one expression.
const TWO_CALLS: &[u8] =
    b"#include <stdio.h>\nint g(int a){return a+1;}\nint h(int a){return a*2;}\nint main(void){\nint x=g(1)+h(2);\nputchar(64+x);\nreturn x;\n}\n";

/// A function that calls itself so often that 1,024 activations live.
const DEEPEST: &[u8] =
    b"int f(int n){\nif(n==0)\nreturn 0;\nreturn f(n-1)+1;\n}\nint main(void){\nreturn f(1022);\n}\n";

/// A function that calls itself.
const RECURSION: &[u8] =
    b"int f(int n){\nif(n==0)\nreturn 0;\nint r=f(n-1);\nreturn r+n;\n}\nint main(void){\nreturn f(2);\n}\n";

/// What sessions print with variables in slots and in registers, by passes and without, alike.
static IN_EACH: [Session; 13] = [
    Session {
        shows: "an empty main ends with zero",
        source: b"int main(){}\n",
        script: b"step\nstep\nprint x\n",
        input: b"",
        printed: b"at 2 line 1 main depth 1\nexit 0\nno stop\n",
    },
    Session {
        shows: "the empty statements of two arms are stops",
        source: b"int main(void){int c=0; if (c) ; else ; return c;}\n",
        script: b"step\nstep\nstep\nstep\n",
        input: b"",
        printed: b"at 2 line 1 main depth 1\nat 3 line 1 main depth 1\nat 5 line 1 main depth 1\nat 6 line 1 main depth 1\n",
    },
    Session {
        shows: "a thousand and twenty four activations may live",
        source: b"int f(int n){if(n==0)return 0;return f(n-1)+1;}\nint main(void){return f(1022);}\n",
        script: b"continue\n",
        input: b"",
        printed: b"exit 1022\n",
    },
    Session {
        shows: "one activation more ends the run",
        source: b"int f(int n){if(n==0)return 0;return f(n-1)+1;}\nint main(void){return f(1023);}\n",
        script: b"continue\n",
        input: b"",
        printed: b"depth\n",
    },
    Session {
        shows: "next stays where a call goes in, and finish comes out of it",
        source: TWO_CALLS,
        script: b"finish\nnext\nnext\nfinish\nnext\nfinish\n",
        input: b"",
        printed: b"no stop\nat 6 line 5 main depth 1\nat 7 line 6 main depth 1\nout \"F\"\nexit 6\nexit 6\nexit 6\n",
    },
    Session {
        shows: "what is called behind a call is no deeper than it",
        source: TWO_CALLS,
        script: b"step\nstep\nnext\nfinish\nnext\nnext\n",
        input: b"",
        printed: b"at 6 line 5 main depth 1\nat 2 line 2 g depth 2\nat 4 line 3 h depth 2\nat 7 line 6 main depth 1\nout \"F\"\nat 8 line 7 main depth 1\nexit 6\n",
    },
    Session {
        shows: "finish leaves out what is called behind a call",
        source: TWO_CALLS,
        script: b"break g\ncontinue\nfinish\n",
        input: b"",
        printed: b"break at 2\nat 2 line 2 g depth 2\nat 7 line 6 main depth 1\n",
    },
    Session {
        shows: "next runs past the calls of a function to itself",
        source: RECURSION,
        script: b"next\nstep\nnext\nnext\nnext\n",
        input: b"",
        printed: b"at 7 line 8 main depth 1\nat 2 line 2 f depth 2\nat 4 line 4 f depth 2\nat 5 line 5 f depth 2\nexit 3\n",
    },
    Session {
        shows: "next and finish halt at a mark in a call of the same function",
        source: RECURSION,
        script: b"break f\ncontinue\nnext\nnext\nfinish\nfinish\nnext\nfinish\n",
        input: b"",
        printed: b"break at 2\nat 2 line 2 f depth 2\nat 4 line 4 f depth 2\nat 2 line 2 f depth 3\nat 2 line 2 f depth 4\nat 5 line 5 f depth 3\nat 5 line 5 f depth 2\nexit 3\n",
    },
    Session {
        shows: "finish comes out of a call, and next halts behind the output",
        source: ON_ONE_WAY,
        script: b"break f\ncontinue\nfinish\nnext\n",
        input: b"BZ",
        printed: b"break at 2\nat 2 line 2 f depth 2\nat 8 line 9 main depth 1\nout \"Z\"\nat 9 line 11 main depth 1\n",
    },
    Session {
        shows: "finish comes out of the deepest activation",
        source: DEEPEST,
        script: b"break 3\ncontinue\nfinish\nfinish\n",
        input: b"",
        printed: b"break at 3\nat 3 line 3 f depth 1024\nexit 1022\nexit 1022\n",
    },
    Session {
        shows: "next comes to the end of a run whose calls nest too deep",
        source: b"int f(int n){if(n==0)return 0;return f(n-1)+1;}\nint main(void){return f(1023);}\n",
        script: b"next\nnext\nnext\nfinish\n",
        input: b"",
        printed: b"at 6 line 2 main depth 1\ndepth\ndepth\ndepth\n",
    },
    Session {
        shows: "unsigned constants are compared as unsigned",
        source: b"int main(void){return 2147483648u>0u;}\n",
        script: b"continue\n",
        input: b"",
        printed: b"exit 1\n",
    },
];

fn in_each() -> &'static [Session] {
    &IN_EACH
}

/// What sessions print with variables in slots and in registers alike, where no pass changes the program.
static IN_BOTH: [Session; 10] = [
    Session {
        shows: "an outer activation and a call's value are shown",
        source: ON_ONE_WAY,
        script: b"break f\ncontinue\nwhere\nbreak 9\ncontinue\nprint x\nstep\nprint x\n",
        input: b"BZ",
        printed: b"break at 2\nat 2 line 2 f depth 2\n#0 f line 2 place 2\n#1 main line 8 place 7\nbreak at 8\nat 8 line 9 main depth 1\nx = 90\nout \"Z\"\nat 9 line 11 main depth 1\nx = 90\n",
    },
    Session {
        shows: "what precedes an overflow is shown",
        source: b"int main(void){int x=2147483647; x=x+1; return 0;}\n",
        script: b"step\nstep\nprint x\n",
        input: b"",
        printed: b"at 2 line 1 main depth 1\nat 3 line 1 main depth 1\nx = 2147483647\n",
    },
    Session {
        shows: "a division is done behind its guard",
        source: DIVISION,
        script: b"continue\n",
        input: b"4",
        printed: b"out \"22\"\nexit 2\n",
    },
    Session {
        shows: "an exit comes before a division by zero",
        source: DIVISION,
        script: b"continue\n",
        input: b"0",
        printed: b"exit 3\n",
    },
    Session {
        shows: "an array and pointers are shown",
        source: b"int main(void){int a[2]={1,2}; int b=7; int *p=a+2; int *q=&b; return p==q;}\n",
        script: b"step\nstep\nstep\nstep\nstep\nprint a\nprint p\nprint q\ncontinue\n",
        input: b"",
        printed: b"at 2 line 1 main depth 1\nat 3 line 1 main depth 1\nat 4 line 1 main depth 1\nat 5 line 1 main depth 1\nat 6 line 1 main depth 1\na = {1, 2}\np = &a@1+8\nq = &b@1+0\nexit 0\n",
    },
    Session {
        shows: "static variables and a literal are shown",
        source: b"int g=3; char *s=\"hi\"; int main(void){int k=0; return g;}\n",
        script: b"step\nstep\nprint g\nprint s\nprint h\nlocals\n",
        input: b"",
        printed: b"at 2 line 1 main depth 1\nat 3 line 1 main depth 1\ng = 3\ns = &#1+0\nno h here\nk = 0\n",
    },
    Session {
        shows: "a switch falls into its default",
        source: b"int main(void){int n=2; switch(n){case 1: n=10; break; case 2: n=20; default: n=n+1;} return n;}\n",
        script: b"step\nstep\nstep\nstep\nstep\nlocals\ncontinue\n",
        input: b"",
        printed: b"at 2 line 1 main depth 1\nat 3 line 1 main depth 1\nat 6 line 1 main depth 1\nat 7 line 1 main depth 1\nat 8 line 1 main depth 1\nn = 21\nexit 21\n",
    },
    Session {
        shows: "an assignment of a static variable is seen",
        source: b"int g=3; int main(void){g=g+1; return g;}\n",
        script: b"step\nprint g\nstep\nprint g\nlocals\nstep\n",
        input: b"",
        printed: b"at 2 line 1 main depth 1\ng = 3\nat 3 line 1 main depth 1\ng = 4\nno locals\nexit 4\n",
    },
    Session {
        shows: "narrow variables keep their widths",
        source: b"int main(void){unsigned char c=200; short h=-2; c=c+100; return c+h;}\n",
        script: b"continue\n",
        input: b"",
        printed: b"exit 42\n",
    },
    Session {
        shows: "breaks that name nothing are said",
        source: PROGRAM,
        script: b"break 9\nbreak g\nprint x\nwhere\n",
        input: b"",
        printed: b"no place on line 9\nno function g\nno stop\nno stop\n",
    },
];

fn in_both() -> &'static [Session] {
    &IN_BOTH
}

#[test]
fn sources_are_debugged_in_slots(rt: HostRuntime) -> Result<(), Fail> {
    assert_all(&rt, rt.alloc(), IN_SLOTS, in_each())?;
    assert_all(&rt, rt.alloc(), IN_SLOTS, in_both())?;
    Ok(())
}

#[test]
fn sources_are_debugged_in_registers(rt: HostRuntime) -> Result<(), Fail> {
    assert_all(&rt, rt.alloc(), IN_REGISTERS, in_each())?;
    assert_all(&rt, rt.alloc(), IN_REGISTERS, in_both())?;
    Ok(())
}

#[test]
fn sources_are_debugged_by_default(rt: HostRuntime) -> Result<(), Fail> {
    assert_all(&rt, rt.alloc(), BY_DEFAULT, in_each())?;
    Ok(())
}

/// What sessions print with variables in registers.
static ONLY_IN_REGISTERS: [Session; 3] = [
    Session {
        shows: "more variables than registers share them",
        source: b"#include <stdio.h>\nint main(void){\nint a=getchar(),b=getchar(),c=getchar(),d=getchar(),e=getchar(),f=getchar(),g=getchar(),h=getchar(),i=getchar(),j=getchar(),k=getchar(),l=getchar(),m=getchar(),n=getchar(),o=getchar(),p=getchar(),q=getchar(),r=getchar(),s=getchar(),t=getchar();\nint z=a+b+c+d+e+f+g+h+i+j+k+l+m+n+o+p+q+r+s+t;\nputchar(z);\nreturn 0;\n}\n",
        script: b"break 5\ncontinue\nprint a\nprint b\nprint p\nprint z\ncontinue\n",
        input: b"ABCDEFGHIJKLMNOPQRST",
        printed: b"break at 23\nat 23 line 5 main depth 1\na nonresident: 1 homes reused 2, path 2 3 4 5 6 7 8 9 10 11 12 13 14 15 16 17 18 19 20 21 22 23\nb = 66\np = 80\nz = 1490\nout \"\\xd2\"\nexit 0\n",
    },
    Session {
        shows: "each variable takes the register of one that is no longer needed",
        source: b"int main(void){int a=1; int b=a+1; int c=b+1; return c;}\n",
        script: b"step\nstep\nstep\nstep\nlocals\ncontinue\n",
        input: b"",
        printed: b"at 2 line 1 main depth 1\nat 3 line 1 main depth 1\nat 4 line 1 main depth 1\nat 5 line 1 main depth 1\na nonresident: 1 homes reused 2, path 2 3 4 5\nb nonresident: 2 homes reused 3, path 3 4 5\nc = 3\nexit 3\n",
    },
    Session {
        shows: "a program runs in registers",
        source: PROGRAM,
        script: SCRIPT,
        input: b"",
        printed: TRANSCRIPT,
    },
];

fn only_in_registers() -> &'static [Session] {
    &ONLY_IN_REGISTERS
}

#[test]
fn variables_share_registers(rt: HostRuntime) -> Result<(), Fail> {
    assert_all(&rt, rt.alloc(), IN_REGISTERS, only_in_registers())?;
    Ok(())
}

/// The address of a place of an image of one function with no static bytes: its record's last number.
fn address_of_place(rt: &impl Abort, image: &[u8], place: usize) -> u32 {
    let code_words = number_at(rt, image, 16) as usize;
    let code = code_words.wrapping_mul(4);
    let at = place.wrapping_mul(16).wrapping_add(code).wrapping_add(80);
    assert!(rt; at < 1000);
    number_at(rt, image, at)
}

#[test]
fn the_empty_statements_of_two_arms_have_addresses_of_their_own(
    rt: HostRuntime,
) -> Result<(), Fail> {
    let source = b"int main(void){int c=0; if (c) ; else ; return c;}\n".as_slice();
    let mut shelf = shelf(rt.alloc(), source, b"".as_slice(), b"".as_slice())?;
    let image = ended(rt.alloc(), IN_SLOTS, &mut shelf, [].as_slice())?.image;
    assert!(rt; address_of_place(&rt, &image, 4) != address_of_place(&rt, &image, 5));
    Ok(())
}

#[test]
fn a_loop_without_end_meets_the_limit(rt: HostRuntime) -> Result<(), Fail> {
    let source = b"int main(void){for(;;){}}\n".as_slice();
    let script = b"step\nstep\ncontinue\n".as_slice();
    let printed = b"at 2 line 1 main depth 1\nat 2 line 1 main depth 1\nlimit 100\n".as_slice();
    let mut shelf = shelf(rt.alloc(), source, script, b"".as_slice())?;
    let limited = "cdbg debug --limit 100 program.c script input image";
    assert!(rt; prints(rt.alloc(), limited, &mut shelf, printed)?);
    let unchanged = "cdbg debug --passes none --limit 100 program.c script input image";
    assert!(rt; prints(rt.alloc(), unchanged, &mut shelf, printed)?);
    Ok(())
}

#[test]
fn a_constant_over_its_types_is_refused_and_saves_nothing(rt: HostRuntime) -> Result<(), Fail> {
    let source = b"int main(void){return 2147483648;}\n".as_slice();
    let mut shelf = shelf(rt.alloc(), source, SCRIPT, b"".as_slice())?;
    let ended = ended(rt.alloc(), IN_REGISTERS, &mut shelf, [].as_slice())?;
    assert_refused(
        &rt,
        rt.alloc(),
        &ended,
        3,
        "cdbg: source refused E04 line 1",
    )?;
    Ok(())
}

/// The image that the job of these words saves of the program.
fn image_by(alloc: Global, words: &str) -> Result<Vec<u8>, AllocError> {
    let mut shelf = shelf(alloc, PROGRAM, SCRIPT, b"".as_slice())?;
    Ok(ended(alloc, words, &mut shelf, [].as_slice())?.image)
}

#[test]
fn the_image_of_compile_is_that_of_debug(rt: HostRuntime) -> Result<(), Fail> {
    let compiled = image_by(rt.alloc(), COMPILED)?;
    let debugged = image_by(rt.alloc(), IN_REGISTERS)?;
    assert!(rt; !compiled.is_empty() && compiled.as_slice() == debugged.as_slice());
    Ok(())
}

#[test]
fn compile_puts_nothing_out(rt: HostRuntime) -> Result<(), Fail> {
    let mut shelf = shelf(rt.alloc(), PROGRAM, SCRIPT, b"".as_slice())?;
    assert!(rt; prints(rt.alloc(), COMPILED, &mut shelf, b"".as_slice())?);
    assert!(rt; image_prints(rt.alloc(), &mut shelf, TRANSCRIPT)?);
    Ok(())
}

#[test]
fn a_loop_s_output_is_said_in_lines(rt: HostRuntime) -> Result<(), Fail> {
    let source =
        b"#include <stdio.h>\nint main(void){int i=0; while(i<70000){putchar(65); i=i+1;} return 0;}\n".as_slice();
    let mut shelf = shelf(rt.alloc(), source, b"continue\n".as_slice(), b"".as_slice())?;
    let ended = ended(rt.alloc(), IN_REGISTERS, &mut shelf, [].as_slice())?;
    assert!(rt; ended.status == Status::Done);
    // 70,000 bytes in lines of 64.
    assert!(rt; count_of_lines(&ended.taken, b"out \"A".as_slice()) == 1094);
    assert!(rt;
        ended
            .taken
            .as_slice()
            .ends_with(b"A\"\nexit 0\n".as_slice())
    );
    Ok(())
}
