//! From the words to the job.

ghost use Rattle.std.specs.Prelude.{◌≡◌, IfOk, IfSome, IfNone, option_map, option_and_then, map, string_bytes};
ghost use Rattle.clap.specs.Words.{first_value, found_of};
ghost use Rattle.debug_records.specs.Change.{letters};
ghost use Rattle.command_line.specs.Values.{number_in};
ghost use Rattle.command_line.specs.Job.{attach_given, attach_of, compile_given, compile_of, debug_given, debug_of, job_by, job_given, job_in, limit_given, mode_given, names_given, passes_given, passes_of, sweep_given, sweep_of};
ghost use Rattle.command_line.specs.Grammar.{IsJob, IsNoJob};

use crate::job::{Attach, Compile, Debug, Job, Passes, Sweep};
use crate::matching::matches_of;
use crate::values::{mode_of, names_of, number_of};
use clap::ArgMatches;
use debug_records::{Mode, PassName};
use std::alloc::{AllocError, Global};

fn names_or_default(alloc: Global, value: Option<&str>) -> Result<Option<Vec<PassName>>, AllocError>
    ensures { IfOk result
        (λ r. option_map (λ v. map letters v.items) r ≡ names_given (option_map (λ s. s.now) value.entry)) }
{
    names_of(alloc, value.unwrap_or("copy,motion,dead"))
}

fn mode_or_default(value: Option<&str>) -> Option<Mode>
    ensures { result ≡ mode_given (option_map (λ s. s.now) value.entry) }
{
    mode_of(value.unwrap_or("registers"))
}

fn limit_or_default(value: Option<&str>) -> Option<u32>
    ensures { result ≡ limit_given (option_map (λ s. s.now) value.entry) }
{
    number_of(value.unwrap_or("10000000"), 1_000_000_000)
}

fn number_found(value: Option<&str>, most: u32) -> Option<u32>
    ensures { result ≡ option_and_then (number_in most) (option_map (λ s. s.now) value.entry) }
{
    match value {
        Some(text) => number_of(text, most),
        None => None,
    }
}

fn debug_of(alloc: Global, matches: &ArgMatches<'_>) -> Result<Option<Debug>, AllocError>
    ensures { IfOk result (λ r. option_map debug_given r ≡ debug_of (first_value (found_of matches.now))) }
{
    let Some(passes) = names_or_default(alloc, matches.get_str("passes"))? else {
        return Ok(None);
    };
    let Some(mode) = mode_or_default(matches.get_str("homes")) else {
        return Ok(None);
    };
    let Some(limit) = limit_or_default(matches.get_str("limit")) else {
        return Ok(None);
    };
    let Some(source) = matches.get_str("src") else {
        return Ok(None);
    };
    let Some(script) = matches.get_str("script") else {
        return Ok(None);
    };
    let Some(input) = matches.get_str("input") else {
        return Ok(None);
    };
    let Some(image) = matches.get_str("image") else {
        return Ok(None);
    };
    Ok(Some(Debug {
        passes,
        mode,
        limit,
        source: String::from_str(alloc, source)?,
        script: String::from_str(alloc, script)?,
        input: String::from_str(alloc, input)?,
        image: String::from_str(alloc, image)?,
    }))
}

fn compile_of(alloc: Global, matches: &ArgMatches<'_>) -> Result<Option<Compile>, AllocError>
    ensures { IfOk result (λ r. option_map compile_given r ≡ compile_of (first_value (found_of matches.now))) }
{
    let Some(passes) = names_or_default(alloc, matches.get_str("passes"))? else {
        return Ok(None);
    };
    let Some(mode) = mode_or_default(matches.get_str("homes")) else {
        return Ok(None);
    };
    let Some(source) = matches.get_str("src") else {
        return Ok(None);
    };
    let Some(image) = matches.get_str("image") else {
        return Ok(None);
    };
    Ok(Some(Compile {
        passes,
        mode,
        source: String::from_str(alloc, source)?,
        image: String::from_str(alloc, image)?,
    }))
}

fn attach_of(alloc: Global, matches: &ArgMatches<'_>) -> Result<Option<Attach>, AllocError>
    ensures { IfOk result (λ r. option_map attach_given r ≡ attach_of (first_value (found_of matches.now))) }
{
    let Some(limit) = limit_or_default(matches.get_str("limit")) else {
        return Ok(None);
    };
    let Some(image) = matches.get_str("image") else {
        return Ok(None);
    };
    let Some(script) = matches.get_str("script") else {
        return Ok(None);
    };
    let Some(input) = matches.get_str("input") else {
        return Ok(None);
    };
    Ok(Some(Attach {
        limit,
        image: String::from_str(alloc, image)?,
        script: String::from_str(alloc, script)?,
        input: String::from_str(alloc, input)?,
    }))
}

fn passes_of(alloc: Global, matches: &ArgMatches<'_>) -> Result<Option<Passes>, AllocError>
    ensures { IfOk result (λ r. option_map passes_given r ≡ passes_of (first_value (found_of matches.now))) }
{
    let Some(passes) = names_or_default(alloc, matches.get_str("passes"))? else {
        return Ok(None);
    };
    let Some(source) = matches.get_str("src") else {
        return Ok(None);
    };
    Ok(Some(Passes {
        passes,
        source: String::from_str(alloc, source)?,
    }))
}

fn sweep_of(matches: &ArgMatches<'_>) -> Option<Sweep>
    ensures { option_map sweep_given result ≡ sweep_of (first_value (found_of matches.now)) }
{
    let seed = number_found(matches.get_str("seed"), u32::MAX)?;
    let size = number_found(matches.get_str("size"), 400)?;
    if size < 1 {
        return None;
    }
    Some(Sweep { seed, size })
}

fn job_by(alloc: Global, name: &str, matches: &ArgMatches<'_>) -> Result<Option<Job>, AllocError>
    ensures { IfOk result (λ r. option_map job_given r ≡ job_by name.now (first_value (found_of matches.now))) }
{
    if name == "debug" {
        Ok(debug_of(alloc, matches)?.map(Job::Debug))
    } else if name == "compile" {
        Ok(compile_of(alloc, matches)?.map(Job::Compile))
    } else if name == "attach" {
        Ok(attach_of(alloc, matches)?.map(Job::Attach))
    } else if name == "passes" {
        Ok(passes_of(alloc, matches)?.map(Job::Passes))
    } else if name == "sweep" {
        Ok(sweep_of(matches).map(Job::Sweep))
    } else {
        Ok(None)
    }
}

fn job_read(alloc: Global, words: &[String]) -> Result<Option<Job>, AllocError>
    ensures { IfOk result (λ r. option_map job_given r ≡ job_in (map string_bytes words.now)) }
{
    let Some(matches) = matches_of(alloc, words)? else {
        return Ok(None);
    };
    match matches.subcommand() {
        Some((name, inner)) => job_by(alloc, name, inner),
        None => Ok(None),
    }
}

/// The job that the words are, the program's own name first. None where they are no job. `AllocError` where memory was
/// refused.
///
/// Behind the program's name stands the job's name, and then its options and positionals in any order, as
///
/// - `debug [--passes LIST] [--homes MODE] [--limit N] SRC SCRIPT INPUT IMAGE`
/// - `compile [--passes LIST] [--homes MODE] SRC IMAGE`
/// - `attach [--limit N] IMAGE SCRIPT INPUT`
/// - `passes [--passes LIST] SRC`
/// - `sweep SEED SIZE`
///
/// An option is `--limit N` or `--limit=N`, at most once. No positional and no value of an option begins with `-`. LIST
/// is `none`
/// or 1 to 32 names with commas between, each of 1 to 16 lower-case letters, and `copy,motion,dead` if it is not given;
/// MODE is
/// `slots` or `registers`, the default; N is 0 to 1000000000, by default 10000000; SEED is 0 to 4294967295, SIZE is 1
/// to 400, each
/// in one or more decimal digits.
pub fn job_of(alloc: Global, words: &[String]) -> Result<Option<Job>, AllocError>
    ensures job { IfOk result (λ r. IfSome r (λ j. IsJob (map string_bytes words.now) (job_given j))) }
    ensures none { IfOk result (λ r. IfNone r (IsNoJob (map string_bytes words.now))) }
{
    job_read(alloc, words)
}
