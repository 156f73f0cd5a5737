//! The line that says whether C defines a run.

use c_meaning_eval::RunInShort;
use c_meaning_steps::{End, Fault, Standing};
use c_places::{Place, places_of_program};
use c_tree::Program;
use std::alloc::{AllocError, Global};

/// The line of a place; 0 where the program has no such place.
fn line_at(places: &[Place], place: usize) -> u32 {
    match places.get(place.saturating_sub(1)) {
        None => 0,
        Some(found) => found.spot.line,
    }
}

/// The name of a function.
fn name_of(program: &Program, function: u32) -> &str {
    match program.functions.get(function as usize) {
        None => "",
        Some(found) => found.name.as_str(),
    }
}

/// A place as the debugger names it, without `at`: `7 line 5 main depth 1`.
fn place_text(
    alloc: Global,
    program: &Program,
    places: &[Place],
    at: Standing,
) -> Result<String, AllocError> {
    let place = at.place;
    let line = line_at(places, place);
    let name = name_of(program, at.function);
    let depth = at.depth;
    format!(in alloc; "{place} line {line} {name} depth {depth}")
}

/// A number of things that have a name: `1 stop`, `2 stops`.
fn count_text(alloc: Global, count: u64, name: &str) -> Result<String, AllocError> {
    let ending = if count == 1 { "" } else { "s" };
    format!(in alloc; "{count} {name}{ending}")
}

/// How many stops a run made and, behind a word, how many bytes it put out: `41 stops, 3 bytes`.
fn amounts_text(alloc: Global, run: &RunInShort, between: &str) -> Result<String, AllocError> {
    let stops = count_text(alloc, run.stops, "stop")?;
    let bytes = count_text(alloc, run.bytes, "byte")?;
    format!(in alloc; "{stops}{between}{bytes}")
}

/// What is told of a run that C does not define to its end: the place at which it ended, the stops that it made until
/// then, that at this place among them,
/// the bytes that it put out, the place of the last stop where that is another, and the cause.
fn undefined_line(
    alloc: Global,
    program: &Program,
    run: &RunInShort,
    fault: Fault,
) -> Result<String, AllocError> {
    let places = places_of_program(alloc, program)?;
    let amounts = amounts_text(alloc, run, " and ")?;
    let cause = fault.words();
    let (Some(at), Some(last)) = (run.at, run.last) else {
        return format!(in alloc; "undefined: before the first place, after {amounts}: {cause}\n");
    };
    let place = place_text(alloc, program, &places, at)?;
    if at == last {
        return format!(in alloc; "undefined: at {place}, after {amounts}: {cause}\n");
    }
    let stop = place_text(alloc, program, &places, last)?;
    format!(in alloc; "undefined: at {place}, after {amounts}, the last at {stop}: {cause}\n")
}

/// The line that says how a run of so many turns ended, with its line end:
///
/// - `defined: 41 stops, 3 bytes, exit 5`, or `depth` in place of the status where a call found 1,024 activations
/// alive;
/// - `undefined: at 7 line 5 main depth 1, after 40 stops and 2 bytes: division by zero`. The stops are all that the
/// run made, that at this place among them;
/// - `open: 1000000 turns, after 999998 stops and 0 bytes`: the turns were used up, and C defined all that was done.
pub fn line_of(
    alloc: Global,
    program: &Program,
    turns: u64,
    run: &RunInShort,
) -> Result<String, AllocError> {
    match run.end {
        End::Exit(status) => {
            let amounts = amounts_text(alloc, run, ", ")?;
            format!(in alloc; "defined: {amounts}, exit {status}\n")
        }
        End::Depth => {
            let amounts = amounts_text(alloc, run, ", ")?;
            format!(in alloc; "defined: {amounts}, depth\n")
        }
        End::Turns => {
            let most = count_text(alloc, turns, "turn")?;
            let amounts = amounts_text(alloc, run, " and ")?;
            format!(in alloc; "open: {most}, after {amounts}\n")
        }
        End::Undefined(fault) => undefined_line(alloc, program, run, fault),
    }
}
