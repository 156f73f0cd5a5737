//! Reading a script.

ghost use Rattle.std.specs.Prelude.{◌≡◌, true, IfErr, IfOk, string_bytes};
ghost use Rattle.std.specs.Char.{is_ascii_digit};
ghost use Rattle.std.specs.List.{list_all};
ghost use Rattle.std.specs.Option.{option_map};
ghost use Rattle.std.specs.Str.Parse.{digits_value};
ghost use Rattle.script_form.specs.Reading.{Gives, at_line, begins_with_digit, is_line_number, mark_of, name_of, order_of_line, order_of_word, order_of_words, script_of};
ghost use Rattle.script_form.specs.Refusal.{HasLineIn, IsRefusal, ReadingsAreOne};
ghost use Rattle.script_form.specs.Script.{IsScript, mark, order_of, orders};

use crate::command::{Command, Target};
use crate::lines::first_line;
use crate::refusal::ScriptErr;
use crate::words::{first_word, is_name, only_word};
use debug_records::Code;
use std::alloc::Global;
use std::str;

/// How many bytes a line has at most, without its end.
const LINE_BYTES: usize = 200;

/// How many digits the number of a line has at most.
const LINE_DIGITS: usize = 9;

/// The commands of a script, line by line; a line without words asks for nothing.
///
/// Another text is refused for the first line that breaks a rule, with the first code of S04, S01, S02 and S03 that it
/// earns: it has
/// over 200 bytes, it is no command or has words too many, the line of a `break` is no number of 1 to 9 digits that
/// begins with 1 to
/// 9, or a name is missing or no identifier. `NoMemory` comes where memory for the commands was refused.
#[tactic(auto, using(crate::proofs::ScriptLaws::accepted, crate::proofs::ScriptLaws::refused))]
pub fn read(alloc: Global, text: &[u8]) -> Result<Vec<Command>, ScriptErr>
    // The text is a script that asks for these commands.
    ensures accepted { IfOk result (λ commands. IsScript text.now (orders commands.items)) }

    // The first line that breaks a rule is this one, and it breaks this rule.
    ensures refused { IfErr result (IsRefusal text.now) }

    // Either comes exactly where it should, unless memory runs out.
    ensures exact { Gives (λ commands. orders commands.items) result (script_of text.now) }

    // The number of the line is at most how many bytes the text has.
    ensures line { IfErr result (HasLineIn text.now) }
{
    read_exactly(alloc, text)
}

#[tactic(auto, using(crate::proofs::Progress::line_without_words, crate::proofs::Progress::line_with_command, crate::proofs::Progress::line_with_fault, crate::proofs::Progress::at_end, crate::proofs::Progress::fault_line))]
fn read_exactly(alloc: Global, text: &[u8]) -> Result<Vec<Command>, ScriptErr>
    ensures exact { Gives (λ commands. orders commands.items) result (script_of text.now) }
    ensures line { IfErr result (HasLineIn text.now) }
{
    let mut commands = Vec::new(alloc);
    let mut rest = text;
    let mut number = 0;
    while !rest.is_empty() {
        let (line, behind) = first_line(rest);
        number += 1;
        if let Some(command) = command_of(alloc, line, number)? {
            commands.push(command)?;
        }
        rest = behind;
    }
    Ok(commands)
}

/// The command of the line with that number, if it has words.
#[tactic(auto, unfolding(crate::specs::Reading::order_of_line))]
fn command_of(alloc: Global, line: &[u8], number: usize) -> Result<Option<Command>, ScriptErr>
    ensures { Gives (option_map order_of) result (at_line number (order_of_line line.now)) }
{
    if line.len() > LINE_BYTES {
        return Err(ScriptErr::Refused(Code::LINE_SIZE, number));
    }
    let Some((head, rest)) = first_word(line) else {
        return Ok(None);
    };
    let Some(word) = only_word(rest) else {
        return Err(ScriptErr::Refused(Code::UNKNOWN_COMMAND, number));
    };
    Ok(Some(command_of_words(alloc, head, word, number)?))
}

/// The command of its first word and its argument, which is empty where it is missing.
#[tactic(auto, unfolding(crate::specs::Reading::order_of_words))]
fn command_of_words(
    alloc: Global,
    head: &[u8],
    word: &[u8],
    number: usize,
) -> Result<Command, ScriptErr>
    ensures { Gives order_of result (at_line number (order_of_words head.now word.now)) }
{
    if head == b"break".as_slice() {
        return Ok(Command::Break(target_of(alloc, word, number)?));
    }
    if head == b"print".as_slice() {
        return Ok(Command::Print(name_of(alloc, word, number)?));
    }
    match command_of_word(head) {
        Some(command) if word.is_empty() => Ok(command),
        _ => Err(ScriptErr::Refused(Code::UNKNOWN_COMMAND, number)),
    }
}

/// The command that is one word, if the word is one.
#[tactic(auto, unfolding(crate::specs::Reading::order_of_word))]
fn command_of_word(word: &[u8]) -> Option<Command>
    ensures { option_map order_of result ≡ order_of_word word.now }
{
    if word == b"step".as_slice() {
        Some(Command::Step)
    } else if word == b"continue".as_slice() {
        Some(Command::Continue)
    } else if word == b"next".as_slice() {
        Some(Command::Next)
    } else if word == b"finish".as_slice() {
        Some(Command::Finish)
    } else if word == b"locals".as_slice() {
        Some(Command::Locals)
    } else if word == b"where".as_slice() {
        Some(Command::Where)
    } else if word == b"quit".as_slice() {
        Some(Command::Quit)
    } else {
        None
    }
}

/// What the argument of a `break` marks: a line where it begins with a digit.
#[tactic(auto, unfolding(crate::specs::Reading::mark_of))]
fn target_of(alloc: Global, word: &[u8], number: usize) -> Result<Target, ScriptErr>
    ensures { Gives mark result (at_line number (mark_of word.now)) }
{
    if !begins_with_digit(word) {
        return Ok(Target::Function(name_of(alloc, word, number)?));
    }
    if !is_line_number(word) {
        return Err(ScriptErr::Refused(Code::LINE_NUMBER, number));
    }
    Ok(Target::Line(line_number(word)))
}

#[tactic(auto, unfolding(crate::specs::Reading::begins_with_digit))]
fn begins_with_digit(word: &[u8]) -> bool
    ensures { result ≡ begins_with_digit word.now }
{
    match word.first() {
        Some(first) => first.is_ascii_digit(),
        None => false,
    }
}

/// Whether a word is the number of a line: 1 to 9 digits, of which the first is not 0.
#[tactic(auto, unfolding(crate::specs::Reading::is_line_number))]
fn is_line_number(word: &[u8]) -> bool
    ensures { result ≡ is_line_number word.now }
{
    match word.first() {
        Some(first) => *first != b'0' && word.len() <= LINE_DIGITS && has_digits(word),
        None => false,
    }
}

fn has_digits(word: &[u8]) -> bool
    ensures { result ≡ list_all is_ascii_digit word.now }
{
    word.iter().all(|byte| byte.is_ascii_digit())
}

/// The number that the word of a line says.
#[tactic(auto, using(crate::proofs::Numbers::digits_are_text, crate::proofs::Numbers::line_number_parsed))]
fn line_number(word: &[u8]) -> u32
    requires { is_line_number word.now ≡ true }
    ensures { result ≡ digits_value 10 word.now }
{
    let text = str::from_utf8(word).unwrap();
    text.parse().unwrap()
}

/// The name that a word is.
#[tactic(auto, unfolding(crate::specs::Reading::name_of), using(crate::proofs::Names::name_is_text))]
fn name_of(alloc: Global, word: &[u8], number: usize) -> Result<String, ScriptErr>
    ensures { Gives string_bytes result (at_line number (name_of word.now)) }
{
    if !is_name(word) {
        return Err(ScriptErr::Refused(Code::COMMAND_NAME, number));
    }
    let name = str::from_utf8(word).unwrap();
    Ok(String::from_str(alloc, name)?)
}

/// A law: a text is a script of one list of orders, or is refused for one line and one rule.
pub fn readings_are_one()
    ensures { ReadingsAreOne }
{}
