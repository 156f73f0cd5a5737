//! The values of options and positionals.

ghost use Rattle.std.specs.Prelude.{◌≡◌, IfOk, option_map, map};
ghost use Rattle.std.specs.List.{list_all};
ghost use Rattle.debug_records.specs.Change.{letters};
ghost use Rattle.command_line.specs.Values.{all_named, are_digits, mode_named, names_in, number_in, comma_pieces};

use debug_records::{Mode, PassName};
use std::alloc::{AllocError, Global};

/// How many passes a list names at most.
const MOST_PASSES: usize = 32;

fn are_digits(text: &str) -> bool
    ensures { result ≡ are_digits text.now }
{
    text.bytes().all(|byte| byte.is_ascii_digit())
}

/// The number that one or more decimal digits write. None for other texts, and where it is above `most`.
pub fn number_of(text: &str, most: u32) -> Option<u32>
    ensures { result ≡ number_in most text.now }
{
    if text.is_empty() || !are_digits(text) {
        return None;
    }
    match text.parse::<u32>() {
        Ok(number) if number <= most => Some(number),
        _ => None,
    }
}

/// The mode of this name. None for other texts.
pub fn mode_of(text: &str) -> Option<Mode>
    ensures { result ≡ mode_named text.now }
{
    if text == "slots" {
        Some(Mode::Slots)
    } else if text == "registers" {
        Some(Mode::Registers)
    } else {
        None
    }
}

// The texts between the commas.
fn cut<'a>(alloc: Global, text: &'a str) -> Result<Vec<&'a str>, AllocError>
    ensures { IfOk result (λ v. map (λ s. s.now) v.items ≡ comma_pieces text.entry.now) }
{
    text.split(',').collect(alloc)
}

// The texts as names, if each is one.
fn pass_names(alloc: Global, texts: &[&str]) -> Result<Option<Vec<PassName>>, AllocError>
    ensures { IfOk result (λ r. option_map (λ v. map letters v.items) r ≡ all_named (map (λ text. text.now) texts.now)) }
{
    let mut names = Vec::new(alloc);
    for text in texts {
        match PassName::of(text.as_bytes()) {
            Some(name) => names.push(name)?,
            None => return Ok(None),
        }
    }
    Ok(Some(names))
}

/// The names of a list of passes. None where the text is no such list. `AllocError` where memory was refused.
pub fn names_of(alloc: Global, text: &str) -> Result<Option<Vec<PassName>>, AllocError>
    ensures { IfOk result (λ r. option_map (λ v. map letters v.items) r ≡ names_in text.now) }
{
    if text == "none" {
        return Ok(Some(Vec::new(alloc)));
    }
    let found = cut(alloc, text)?;
    if found.len() > MOST_PASSES {
        return Ok(None);
    }
    pass_names(alloc, &found)
}
