//! Runs of small programs, worked by hand from what ISO/IEC 9899:2011 says of them.

use c_meaning_eval::{SourceRun, eval};
use c_meaning_steps::{Ending, Event};
use c_parse::parse;
use c_token::tokens;
use c_type::check;
use debug_records::SourceErr;
use std::alloc::{AllocError, Global};
use std::test::Fail;

const TURNS: u64 = 5000;

/// The run of the program of a text on an input, of at most so many turns.
fn run_text(alloc: Global, text: &[u8], input: &[u8], turns: u64) -> Result<SourceRun, SourceErr> {
    let tokens = tokens(alloc, text)?;
    let program = check(alloc, parse(alloc, &tokens)?)?;
    let run = eval(alloc, &program, input, turns)?;
    Ok(run)
}

/// The numbers of the places at which a run stops.
fn stops(alloc: Global, run: &SourceRun) -> Result<Vec<usize>, AllocError> {
    let mut places = Vec::new(alloc);
    for event in &run.events {
        if let Event::Stop(stop) = event {
            places.push(stop.place)?;
        }
    }
    Ok(places)
}

/// The bytes that a run puts out.
fn bytes(alloc: Global, run: &SourceRun) -> Result<Vec<u8>, AllocError> {
    let mut found = Vec::new(alloc);
    for event in &run.events {
        if let Event::Put(byte) = event {
            found.push(*byte)?;
        }
    }
    Ok(found)
}

/// A source with the turns and the input that its run has, the places at which the run stops, the bytes that it puts
/// out, and how it ends.
struct Row {
    text: &'static [u8],
    turns: u64,
    input: &'static [u8],
    stops: &'static [usize],
    bytes: &'static [u8],
    ending: Ending,
}

static ROWS: [Row; 16] = [
    Row {
        text: b"#include <stdio.h>\nint main(void){int x=2; x=x+3; putchar(65); return x;}",
        turns: TURNS,
        input: b"",
        stops: &[2, 3, 4, 5],
        bytes: b"A",
        ending: Ending::Exit(5),
    },
    // of the two empty statements the run stops at the second alone (6.8.3, 6.8.4.1)
    Row {
        text: b"int main(void){int c=0; if (c) ; else ; return c;}",
        turns: TURNS,
        input: b"",
        stops: &[2, 3, 5, 6],
        bytes: b"",
        ending: Ending::Exit(0),
    },
    // control falls from one label into the next (6.8.4.2)
    Row {
        text: b"int main(void){int n=2; switch(n){case 1: n=10; break; case 2: n=20; default: n=n+1;} return n;}",
        turns: TURNS,
        input: b"",
        stops: &[2, 3, 6, 7, 8],
        bytes: b"",
        ending: Ending::Exit(21),
    },
    // `continue` goes to the step (6.8.6.2)
    Row {
        text: b"int main(void){for(int i=0; i<2; i=i+1) continue; return 0;}",
        turns: TURNS,
        input: b"",
        stops: &[2, 3, 5, 4, 3, 5, 4, 3, 6],
        bytes: b"",
        ending: Ending::Exit(0),
    },
    // the closing brace of `main` returns 0 (5.1.2.2.3)
    Row {
        text: b"int main(void){}",
        turns: TURNS,
        input: b"",
        stops: &[2],
        bytes: b"",
        ending: Ending::Exit(0),
    },
    // `exit` ends the program within a call (7.22.4.4)
    Row {
        text: b"#include <stdlib.h>\nint f(void){exit(7);}\nint main(void){f(); return 1;}",
        turns: TURNS,
        input: b"",
        stops: &[5, 2],
        bytes: b"",
        ending: Ending::Exit(7),
    },
    // quotients are rounded toward zero (6.5.5p6)
    Row {
        text: b"int main(void){int a=-7; return a/2*10+a%2;}",
        turns: TURNS,
        input: b"",
        stops: &[2, 3],
        bytes: b"",
        ending: Ending::Exit(-31),
    },
    // the first values of static objects, and an address among them (6.7.9)
    Row {
        text: b"char a[3]=\"xy\"; char *p=&a[1]; short n=-2; int main(void){return *p+n;}",
        turns: TURNS,
        input: b"",
        stops: &[2],
        bytes: b"",
        ending: Ending::Exit(119),
    },
    // a byte of a literal becomes a number of the array's type, and `char` has no negative ones (6.7.9p14, 6.3.1.3)
    Row {
        text: b"int main(void){char a[2]=\"\\xff\"; return a[0]==255;}",
        turns: TURNS,
        input: b"",
        stops: &[2, 3],
        bytes: b"",
        ending: Ending::Exit(1),
    },
    // the end of the input (7.21.7.6)
    Row {
        text: b"#include <stdio.h>\nint main(void){putchar(getchar()); return getchar();}",
        turns: TURNS,
        input: b"z",
        stops: &[2, 3],
        bytes: b"z",
        ending: Ending::Exit(-1),
    },
    // an input of no bytes is at its end
    Row {
        text: b"#include <stdio.h>\nint main(void){return getchar();}",
        turns: TURNS,
        input: b"",
        stops: &[2],
        bytes: b"",
        ending: Ending::Exit(-1),
    },
    // 2147483648 is no `int` (6.5p5)
    Row {
        text: b"int main(void){int x=2147483647; x=x+1; return 0;}",
        turns: TURNS,
        input: b"",
        stops: &[2, 3],
        bytes: b"",
        ending: Ending::Undefined,
    },
    // the object to which p points has ended (6.2.4p2)
    Row {
        text: b"int main(void){int *p=0; {int y=1; p=&y;} return *p;}",
        turns: TURNS,
        input: b"",
        stops: &[2, 3, 4, 5],
        bytes: b"",
        ending: Ending::Undefined,
    },
    // x and y are read in their own initializers behind a store, through a pointer and by name (6.3.2.1p2)
    Row {
        text: b"int set(int *p){*p=5; return *p+1;}\nint main(void){int x=set(&x); int y=(y=3,y+4); return x+y;}",
        turns: TURNS,
        input: b"",
        stops: &[5, 2, 3, 6, 7],
        bytes: b"",
        ending: Ending::Exit(13),
    },
    // and x before any
    Row {
        text: b"int main(void){int x = x + 1; return x;}",
        turns: TURNS,
        input: b"",
        stops: &[2],
        bytes: b"",
        ending: Ending::Undefined,
    },
    // a loop without an end goes as far as the turns
    Row {
        text: b"int main(void){for(;;){}}",
        turns: 4,
        input: b"",
        stops: &[2, 2, 2],
        bytes: b"",
        ending: Ending::Turns,
    },
];

/// Whether a run is the one of a row.
fn is_as_worked(alloc: Global, row: &Row) -> Result<bool, SourceErr> {
    let run = run_text(alloc, row.text, row.input, row.turns)?;
    let stops = stops(alloc, &run)?;
    let bytes = bytes(alloc, &run)?;
    Ok(stops.as_slice() == row.stops && bytes.as_slice() == row.bytes && run.ending == row.ending)
}

#[test]
fn runs_stop_and_end_as_worked_by_hand(rt: HostRuntime) -> Result<(), Fail> {
    for row in &ROWS {
        let text = row.text;
        assert!(rt; is_as_worked(rt.alloc(), row)?, "{text:?}");
    }
    Ok(())
}

/// What can be seen of a run, with of a stop the number of its place alone.
#[derive(Clone, Copy, PartialEq, Eq)]
enum Seen {
    Stop(usize),
    Put(u8),
    Exited(i64),
    TooDeep,
}

fn seen_in(event: &Event) -> Seen {
    match event {
        Event::Stop(stop) => Seen::Stop(stop.place),
        Event::Put(byte) => Seen::Put(*byte),
        Event::Exited(status) => Seen::Exited(*status),
        Event::TooDeep => Seen::TooDeep,
    }
}

#[test]
fn a_byte_is_put_out_where_it_stands_among_the_stops(rt: HostRuntime) -> Result<(), Fail> {
    let text = b"#include <stdio.h>\nint main(void){int x=2; x=x+3; putchar(65); return x;}";
    let run = run_text(rt.alloc(), text, &[], 100)?;
    let mut events = Vec::new(rt.alloc());
    for event in &run.events {
        events.push(seen_in(event))?;
    }
    let wanted = [
        Seen::Stop(2),
        Seen::Stop(3),
        Seen::Stop(4),
        Seen::Put(65),
        Seen::Stop(5),
        Seen::Exited(5),
    ];
    assert!(rt; events.as_slice() == wanted.as_slice());
    assert!(rt; run.ending == Ending::Exit(5));
    Ok(())
}

#[test]
fn no_more_activations_live_than_1024(rt: HostRuntime) -> Result<(), Fail> {
    let deep = b"int f(int n){if(n==0)return 0; return f(n-1);} int main(void){return f(1022);}";
    let deeper = b"int f(int n){if(n==0)return 0; return f(n-1);} int main(void){return f(1023);}";
    assert!(rt; run_text(rt.alloc(), deep, &[], TURNS)?.ending == Ending::Exit(0));
    assert!(rt; run_text(rt.alloc(), deeper, &[], TURNS)?.ending == Ending::Depth);
    Ok(())
}
