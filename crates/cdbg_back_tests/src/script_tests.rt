//! Scripts, and what texts are refused for, worked by hand from docs/refusals.md.

use debug_records::Code;
use script_form::{Command, ScriptErr, Target, read};
use std::alloc::{AllocError, Global};
use std::test::Fail;

fn name(alloc: Global, text: &str) -> Result<String, AllocError> {
    String::from_str(alloc, text)
}

#[test]
fn each_command_is_read(rt: HostRuntime) -> Result<(), Fail> {
    let text =
        b"break 12\nbreak main\nstep                                                                                                                                                                                                    \r\ncontinue\r\nnext\n\tfinish \n\n  print\tx_1  \n \t\nlocals\nwhere\nquit";
    let commands = read(rt.alloc(), text.as_slice())?;
    let expected = vec![in rt.alloc();
        Command::Break(Target::Line(12)),
        Command::Break(Target::Function(name(rt.alloc(), "main")?)),
        Command::Step,
        Command::Continue,
        Command::Next,
        Command::Finish,
        Command::Print(name(rt.alloc(), "x_1")?),
        Command::Locals,
        Command::Where,
        Command::Quit,
    ]?;
    assert!(rt; commands == expected);
    Ok(())
}

/// Texts that are no scripts, the rule that each breaks as docs/refusals.md has it, and its line. The last one has a
/// line of 201 bytes.
static REFUSALS: [(&[u8], Code, usize); 17] = [
    (b"jump 3\n", Code::UNKNOWN_COMMAND, 1),
    (b"quit\njump", Code::UNKNOWN_COMMAND, 2),
    (b"step step\n", Code::UNKNOWN_COMMAND, 1),
    (b"next 1\n", Code::UNKNOWN_COMMAND, 1),
    (b"finish f\n", Code::UNKNOWN_COMMAND, 1),
    (b"nexts\n", Code::UNKNOWN_COMMAND, 1),
    (b"break 0 0\n", Code::UNKNOWN_COMMAND, 1),
    (b"step\r", Code::UNKNOWN_COMMAND, 1),
    (b"break 1234567890\n", Code::LINE_NUMBER, 1),
    (b"\nbreak 0\n", Code::LINE_NUMBER, 2),
    (b"break 9x\n", Code::LINE_NUMBER, 1),
    (b"break\n", Code::COMMAND_NAME, 1),
    (b"break +1\n", Code::COMMAND_NAME, 1),
    (b"print\n", Code::COMMAND_NAME, 1),
    (b"print 9x\n", Code::COMMAND_NAME, 1),
    (b"print x-y\n", Code::COMMAND_NAME, 1),
    (
        b" step                                                                                                                                                                                                    \r\n",
        Code::LINE_SIZE,
        1,
    ),
];

fn refusals() -> &'static [(&'static [u8], Code, usize)] {
    &REFUSALS
}

#[test]
fn each_rule_has_its_code(rt: HostRuntime) {
    for (text, code, line) in refusals() {
        let error = read(rt.alloc(), *text).err();
        assert!(rt; error == Some(ScriptErr::Refused(*code, *line)), "{text:?}");
    }
}
