//! Whether C defines the runs of small programs, and why not: told by what ISO/IEC 9899:2011 says of them.

use c_meaning_eval::{RunInShort, eval_in_short};
use c_meaning_steps::{End, Fault};
use c_parse::parse;
use c_token::tokens;
use c_type::check;
use debug_records::SourceErr;
use std::alloc::Global;
use std::test::Fail;

/// How many turns a run has at most.
const TURNS: u64 = 5000;

/// The run of the program of a text in short, with no input.
fn run_text(alloc: Global, text: &[u8]) -> Result<RunInShort, SourceErr> {
    let tokens = tokens(alloc, text)?;
    let program = check(alloc, parse(alloc, &tokens)?)?;
    let run = eval_in_short(alloc, &program, &[], TURNS)?;
    Ok(run)
}

/// A source with how its run ends, how many stops it makes, how many bytes it puts out, and the places of the end and
/// of the last stop.
struct Row {
    text: &'static [u8],
    end: End,
    stops: u64,
    bytes: u64,
    at: usize,
    last: usize,
}

static FAULTS: [Row; 18] = [
    // 6.5.5p5
    Row {
        text: b"int main(void){int n=0; return 1/n;}",
        end: End::Undefined(Fault::DivisionByZero),
        stops: 2,
        bytes: 0,
        at: 3,
        last: 3,
    },
    Row {
        text: b"int main(void){int n=0; return 1%n;}",
        end: End::Undefined(Fault::DivisionByZero),
        stops: 2,
        bytes: 0,
        at: 3,
        last: 3,
    },
    // 2147483648 is no `int` (6.5p5)
    Row {
        text: b"int main(void){int x=2147483647; x=x+1; return 0;}",
        end: End::Undefined(Fault::ResultTooGreat),
        stops: 2,
        bytes: 0,
        at: 3,
        last: 3,
    },
    Row {
        text: b"int main(void){int x=-2147483647-1; return -x;}",
        end: End::Undefined(Fault::ResultTooGreat),
        stops: 2,
        bytes: 0,
        at: 3,
        last: 3,
    },
    Row {
        text: b"int main(void){int x=-2147483647-1; return x/-1;}",
        end: End::Undefined(Fault::ResultTooGreat),
        stops: 2,
        bytes: 0,
        at: 3,
        last: 3,
    },
    // 6.5.7p3 and p4
    Row {
        text: b"int main(void){int n=32; return 1<<n;}",
        end: End::Undefined(Fault::ShiftCount),
        stops: 2,
        bytes: 0,
        at: 3,
        last: 3,
    },
    Row {
        text: b"int main(void){int n=-1; return 8>>n;}",
        end: End::Undefined(Fault::ShiftCount),
        stops: 2,
        bytes: 0,
        at: 3,
        last: 3,
    },
    Row {
        text: b"int main(void){int n=-1; return n<<1;}",
        end: End::Undefined(Fault::NegativeShifted),
        stops: 2,
        bytes: 0,
        at: 3,
        last: 3,
    },
    Row {
        text: b"int main(void){int n=1; return n<<31;}",
        end: End::Undefined(Fault::ShiftTooGreat),
        stops: 2,
        bytes: 0,
        at: 3,
        last: 3,
    },
    // a variable is read before it has its value (6.3.2.1p2)
    Row {
        text: b"int main(void){int x=x+1; return x;}",
        end: End::Undefined(Fault::NoValueYet),
        stops: 1,
        bytes: 0,
        at: 2,
        last: 2,
    },
    // 6.5.3.2p4, 6.5.6p8
    Row {
        text: b"int main(void){int *p=0; return *p;}",
        end: End::Undefined(Fault::NullPointer),
        stops: 2,
        bytes: 0,
        at: 3,
        last: 3,
    },
    Row {
        text: b"int main(void){int a[3]={1,2,3}; int i=3; return a[i];}",
        end: End::Undefined(Fault::PastTheEnd),
        stops: 3,
        bytes: 0,
        at: 4,
        last: 4,
    },
    Row {
        text: b"int main(void){int a[3]={1,2,3}; int i=-1; return a[i];}",
        end: End::Undefined(Fault::MovedOut),
        stops: 3,
        bytes: 0,
        at: 4,
        last: 4,
    },
    Row {
        text: b"int main(void){int *p=0; p=p+1; return 0;}",
        end: End::Undefined(Fault::NullMoved),
        stops: 2,
        bytes: 0,
        at: 3,
        last: 3,
    },
    // the block in which y was declared has been left (6.2.4p2)
    Row {
        text: b"int main(void){int *p=0; {int y=1; p=&y;} return *p;}",
        end: End::Undefined(Fault::LifetimeOver),
        stops: 4,
        bytes: 0,
        at: 5,
        last: 5,
    },
    // 6.5.6p9, 6.5.8p5
    Row {
        text: b"int main(void){int a[2]; int b[2]; return &a[0]-&b[0];}",
        end: End::Undefined(Fault::DifferenceOfTwo),
        stops: 3,
        bytes: 0,
        at: 4,
        last: 4,
    },
    Row {
        text: b"int main(void){int a[2]; int b[2]; return &a[0]<&b[0];}",
        end: End::Undefined(Fault::OrderOfTwo),
        stops: 3,
        bytes: 0,
        at: 4,
        last: 4,
    },
    // 6.4.5p7
    Row {
        text: b"int main(void){char *s=\"ab\"; s[0]=99; return 0;}",
        end: End::Undefined(Fault::LiteralWritten),
        stops: 2,
        bytes: 0,
        at: 3,
        last: 3,
    },
];

/// What is not defined is done behind a call, at the place of the call, which is no longer that of the last stop.
static FAULTS_BEHIND_CALLS: [Row; 3] = [
    // the function reached its brace, and gave no value (6.9.1p12)
    Row {
        text: b"int f(int n){if(n) return 1;} int main(void){return f(0);}",
        end: End::Undefined(Fault::NoValueGiven),
        stops: 3,
        bytes: 0,
        at: 6,
        last: 4,
    },
    // the object of the function has ended with it (6.2.4p2)
    Row {
        text: b"int *f(void){int x=1; return &x;} int main(void){return *f();}",
        end: End::Undefined(Fault::LifetimeOver),
        stops: 3,
        bytes: 0,
        at: 5,
        last: 3,
    },
    Row {
        text: b"int f(void){return 0;} int main(void){return 1/f();}",
        end: End::Undefined(Fault::DivisionByZero),
        stops: 2,
        bytes: 0,
        at: 4,
        last: 2,
    },
];

static SOUND: [Row; 12] = [
    // an unsigned sum is reduced (6.2.5p9)
    Row {
        text: b"int main(void){unsigned x=4294967295u; x=x+1u; return x==0u;}",
        end: End::Exit(1),
        stops: 3,
        bytes: 0,
        at: 4,
        last: 4,
    },
    // the right operand of `&&` is not evaluated (6.5.13p4)
    Row {
        text: b"int main(void){int n=0; return n!=0 && 1/n;}",
        end: End::Exit(0),
        stops: 2,
        bytes: 0,
        at: 3,
        last: 3,
    },
    // the operand of `sizeof` is not evaluated (6.5.3.4p2)
    Row {
        text: b"int main(void){int n=0; return sizeof(1/n)==4u;}",
        end: End::Exit(1),
        stops: 2,
        bytes: 0,
        at: 3,
        last: 3,
    },
    // a pointer one past the end may be made and compared (6.5.6p8)
    Row {
        text: b"int main(void){int a[2]; int *p=a+2; return p==a;}",
        end: End::Exit(0),
        stops: 3,
        bytes: 0,
        at: 4,
        last: 4,
    },
    // pointers to different objects may be compared by `==` (6.5.9p6)
    Row {
        text: b"int main(void){int a[2]; int b[2]; return &a[0]==&b[0];}",
        end: End::Exit(0),
        stops: 3,
        bytes: 0,
        at: 4,
        last: 4,
    },
    // a value that the function did not give is not used (6.9.1p12)
    Row {
        text: b"int f(int n){if(n) return 1;} int main(void){f(0); return 3;}",
        end: End::Exit(3),
        stops: 4,
        bytes: 0,
        at: 7,
        last: 7,
    },
    // a shift of an unsigned number is reduced (6.5.7p4)
    Row {
        text: b"int main(void){unsigned x=1u; return x<<31==2147483648u;}",
        end: End::Exit(1),
        stops: 2,
        bytes: 0,
        at: 3,
        last: 3,
    },
    // a conversion to a type of fewer numbers is not undefined (6.3.1.3)
    Row {
        text: b"int main(void){int n=257; unsigned char c=n; return c;}",
        end: End::Exit(1),
        stops: 3,
        bytes: 0,
        at: 4,
        last: 4,
    },
    // static objects begin as zero (6.7.9p10)
    Row {
        text: b"int a[3]; int main(void){return a[2];}",
        end: End::Exit(0),
        stops: 1,
        bytes: 0,
        at: 2,
        last: 2,
    },
    // the closing brace of `main` returns 0 (5.1.2.2.3)
    Row {
        text: b"int main(void){}",
        end: End::Exit(0),
        stops: 1,
        bytes: 0,
        at: 2,
        last: 2,
    },
    Row {
        text: b"#include <stdio.h>\nint main(void){putchar(72); putchar(10); return 2;}",
        end: End::Exit(2),
        stops: 3,
        bytes: 2,
        at: 4,
        last: 4,
    },
    // `exit` ends the program within a call (7.22.4.4)
    Row {
        text: b"#include <stdlib.h>\nint f(void){exit(7);}\nint main(void){f(); return 1;}",
        end: End::Exit(7),
        stops: 2,
        bytes: 0,
        at: 2,
        last: 2,
    },
];

/// Whether the run of a row ends as the row says.
fn is_as_told(alloc: Global, row: &Row) -> Result<bool, SourceErr> {
    let run = run_text(alloc, row.text)?;
    let (Some(at), Some(last)) = (run.at, run.last) else {
        return Ok(false);
    };
    let is_counted = run.stops == row.stops && run.bytes == row.bytes;
    Ok(is_counted && run.end == row.end && at.place == row.at && last.place == row.last)
}

#[test]
fn what_c_does_not_define_is_told_with_its_cause(rt: HostRuntime) -> Result<(), Fail> {
    for row in &FAULTS {
        let text = row.text;
        assert!(rt; is_as_told(rt.alloc(), row)?, "{text:?}");
    }
    Ok(())
}

#[test]
fn a_fault_behind_a_call_is_told_at_the_place_of_the_call(rt: HostRuntime) -> Result<(), Fail> {
    for row in &FAULTS_BEHIND_CALLS {
        let text = row.text;
        assert!(rt; is_as_told(rt.alloc(), row)?, "{text:?}");
    }
    Ok(())
}

#[test]
fn what_c_defines_is_told_with_its_end(rt: HostRuntime) -> Result<(), Fail> {
    for row in &SOUND {
        let text = row.text;
        assert!(rt; is_as_told(rt.alloc(), row)?, "{text:?}");
    }
    Ok(())
}

#[test]
fn the_turns_bound_a_run(rt: HostRuntime) -> Result<(), Fail> {
    let run = run_text(rt.alloc(), b"int main(void){for(;;){}}")?;
    assert!(rt; run.end == End::Turns);
    assert!(rt; run.stops == TURNS - 1);
    Ok(())
}

#[test]
fn a_run_of_too_many_activations_is_defined(rt: HostRuntime) -> Result<(), Fail> {
    let run = run_text(
        rt.alloc(),
        b"int f(int n){return f(n+1);} int main(void){return f(0);}",
    )?;
    assert!(rt; run.end == End::Depth);
    assert!(rt; run.stops == 1024);
    Ok(())
}
