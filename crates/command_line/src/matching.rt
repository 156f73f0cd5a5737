//! Which job the words name, and what they give to each of its options and positionals.

ghost use Rattle.std.specs.Prelude.{◌≡◌, IfOk, is_some, map, string_bytes};
ghost use Rattle.std.specs.List.{list_all};
ghost use Rattle.command_line.specs.Words.{has_dashed_value, is_dashed, is_readable, long_word};
ghost use Rattle.command_line.specs.Commands.{HasReading};

use crate::command::whole_command;
use clap::ArgMatches;
use clap::error::ErrorKind;
use std::alloc::{AllocError, Global};

fn is_dashed(word: &str) -> bool
    ensures { result ≡ is_dashed word.now }
{
    match word.as_bytes() {
        [b'-', ..] => true,
        _ => false,
    }
}

fn has_dashed_value(word: &str) -> bool
    ensures { result ≡ has_dashed_value word.now }
{
    match word.split_once('=') {
        Some((_, value)) => is_dashed(value),
        None => false,
    }
}

// The word is `--NAME..`.
fn is_long(word: &str) -> bool
    ensures { result ≡ is_some (long_word word.now) }
{
    match word.as_bytes() {
        [b'-', b'-', _, ..] => true,
        _ => false,
    }
}

// The word is `--NAME` or `--NAME=VALUE`, or does not begin with `-`; neither does the value.
fn is_readable_word(word: &str) -> bool
    ensures { result ≡ is_readable word.now }
{
    if !is_dashed(word) {
        return true;
    }
    if !is_long(word) {
        return false;
    }
    !has_dashed_value(word)
}

fn are_readable(words: &[String]) -> bool
    ensures { result ≡ list_all (λ w. is_readable (string_bytes w)) words.now }
{
    words.iter().all(|word| is_readable_word(word.as_str()))
}

/// The matches of the words, which are none exactly where the words are of no job's form. `AllocError` where memory was
/// refused.
///
/// A word that begins with `-` and is no option is refused first: `clap` takes `-` for a positional, and `--` for the
/// end of the
/// options.
pub fn matches_of<'a>(
    alloc: Global,
    words: &'a [String],
) -> Result<Option<ArgMatches<'a>>, AllocError>
    ensures { IfOk result (HasReading (map string_bytes words.entry.now)) }
{
    if words.is_empty() {
        return Ok(None);
    }
    if !are_readable(&words[1..]) {
        return Ok(None);
    }
    let command = whole_command(alloc)?;
    match command.try_get_matches_from(words) {
        Ok(matches) => Ok(Some(matches)),
        Err(error) => match error.kind() {
            ErrorKind::OutOfMemory => Err(AllocError),
            _ => Ok(None),
        },
    }
}
