//! The texts of codes, and a log with its numbers.

use debug_records::{ChangeLog, Code, Kind, Letter, PassName, Place, Var};
use std::test::Fail;

/// Codes of each letter, with their texts as docs/refusals.md has them.
static CODES: [(Code, &str); 5] = [
    (Code::UNEXPECTED_KEYWORD, "E11"),
    (Code::UNKNOWN_COMMAND, "S01"),
    (Code::NO_MAIN, "E29"),
    (
        Code {
            letter: Letter::L,
            number: 9,
        },
        "L09",
    ),
    (
        Code {
            letter: Letter::I,
            number: 10,
        },
        "I10",
    ),
];

fn codes() -> &'static [(Code, &'static str)] {
    &CODES
}

#[test]
fn codes_and_changes_are_numbered(rt: HostRuntime) -> Result<(), Fail> {
    for (code, text) in codes() {
        assert!(rt; code.to_string(rt.alloc())?.as_str() == *text, "{text}");
    }
    let mut log = ChangeLog::new(rt.alloc());
    let Some(pass) = PassName::of(b"dead") else {
        return Err(Fail::new("dead is a name"));
    };
    assert!(rt; log.push(pass, Kind::Removed, Place(3), Var(0))? == 1);
    assert!(rt; log.push(pass, Kind::Removed, Place(5), Var(1))? == 2);
    assert!(rt; log.changes().len() == 2);
    Ok(())
}
