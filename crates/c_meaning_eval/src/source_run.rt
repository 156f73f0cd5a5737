//! The run of a whole program (ISO/IEC 9899:2011, 5.1.2.2).

ghost use Rattle.std.specs.Prelude.{◌≡◌, [], IfOk, map};
ghost use Rattle.c_tree.specs.Programs.{program_view};
ghost use Rattle.c_meaning_steps.specs.Views.{end_view, evaluated_view, event_view};
ghost use Rattle.c_meaning_steps.specs.Tallies.{bytes_in, counted, last_stop, stops_in};
ghost use Rattle.c_meaning_eval.specs.Views.{run_view};
ghost use Rattle.c_meaning_steps.specs.States as states;
ghost use Rattle.c_meaning.specs.Runs.{finished, source_run, with_ending};

use crate::execution::call_function;
use c_meaning::first_memory;
use c_meaning_steps::{End, Ending, Evaluated, Event, Fault, Seen, Standing, State};
use c_meaning_values::Value;
use c_places::places_of_program;
use c_tree::Program;
use std::alloc::{AllocError, Global};

/// A run: what was seen of it, and how it ended.
#[derive(Drop)]
pub struct SourceRun {
    pub events: Vec<Event>,
    pub ending: Ending,
}

/// A run in short.
#[derive(Drop)]
pub struct RunInShort {
    /// How it ended, with the cause where C does not define what comes next.
    pub end: End,
    /// How many stops it made, that at the last place among them; up to the greatest number.
    pub stops: u64,
    /// How many bytes it put out, up to the greatest number.
    pub bytes: u64,
    /// Where its last stop stands, if it made one.
    pub last: Option<Standing>,
    /// The place at which it ended: that of the last stop or, behind a call, the place of the call.
    pub at: Option<Standing>,
}

/// What was seen until a run ended, and how it ended.
#[derive(Drop)]
struct Ended {
    seen: Seen,
    end: End,
    at: Option<Standing>,
}

/// How many activations may live at once.
const ACTIVATIONS: usize = 1024;

/// These events, with the one that an ending is, if it is one.
fn with_ending(end: End, mut events: Vec<Event>) -> Result<SourceRun, AllocError>
    ensures { IfOk result (λ r. run_view r ≡ with_ending (end_view end) (map event_view events.items)) }
{
    let ending = match end {
        End::Undefined(_) => Ending::Undefined,
        End::Turns => Ending::Turns,
        End::Exit(status) => {
            events.push(Event::Exited(status))?;
            Ending::Exit(status)
        }
        End::Depth => {
            events.push(Event::TooDeep)?;
            Ending::Depth
        }
    };
    Ok(SourceRun { events, ending })
}

/// How a run ends, by what `main` leaves.
fn end_of(value: Evaluated) -> End
    ensures { (s : states.State) → finished (evaluated_view value s) ≡ with_ending (end_view result) s.events }
{
    match value {
        Evaluated::Gives(Value::Number(status)) => End::Exit(status),
        Evaluated::Gives(_) => End::Undefined(Fault::Untyped),
        Evaluated::Leaves => End::Undefined(Fault::NoValueGiven),
        Evaluated::Ends(end) => end,
    }
}

/// The run of a program on an input, of at most so many turns, from where nothing was seen.
fn run_to_end(
    alloc: Global,
    program: &Program,
    input: &[u8],
    turns: u64,
    seen: Seen,
) -> Result<Ended, AllocError>
    requires { seen.log.events ≡ [] }
    ensures { IfOk result (λ e.
        with_ending (end_view e.end) e.seen.log.events ≡ source_run (program_view program.now) input.now turns) }
{
    let places = places_of_program(alloc, program)?;
    let memory = first_memory(alloc, program)?;
    let mut state = State {
        memory,
        input,
        seen,
        turns,
        at: None,
    };
    let value = call_function(
        alloc,
        program,
        &places,
        ACTIVATIONS,
        &[],
        program.main,
        &[],
        &mut state,
    )?;
    Ok(Ended {
        seen: state.seen,
        end: end_of(value),
        at: state.at,
    })
}

/// The run of a program on an input, of at most so many turns: each entry of a function and each place that is begun is
/// one.
///
/// # Errors
///
/// `AllocError` where memory was wanting.
pub fn eval(
    alloc: Global,
    program: &Program,
    input: &[u8],
    turns: u64,
) -> Result<SourceRun, AllocError>
    ensures { IfOk result (λ r. run_view r ≡ source_run (program_view program.now) input.now turns) }
{
    let ended = run_to_end(alloc, program, input, turns, Seen::all(alloc))?;
    // all events were kept, since each stop was made with its memory
    let Some(events) = ended.seen.into_events() else {
        return Err(AllocError);
    };
    let whole = with_ending(ended.end, events)?;
    Ok(whole)
}

/// The run of a program on an input in short, of at most so many turns. It takes memory for the objects of the program
/// alone.
///
/// # Errors
///
/// `AllocError` where memory was wanting.
pub fn eval_in_short(
    alloc: Global,
    program: &Program,
    input: &[u8],
    turns: u64,
) -> Result<RunInShort, AllocError>
    ensures ending { IfOk result (λ r. end_view r.end ≡ (source_run (program_view program.now) input.now turns).ending) }
    ensures stops { IfOk result
        (λ r. r.stops ≡ counted (stops_in (source_run (program_view program.now) input.now turns).events)) }
    ensures bytes { IfOk result
        (λ r. r.bytes ≡ counted (bytes_in (source_run (program_view program.now) input.now turns).events)) }
    ensures last { IfOk result (λ r. r.last ≡ last_stop (source_run (program_view program.now) input.now turns).events) }
{
    let ended = run_to_end(alloc, program, input, turns, Seen::in_short())?;
    Ok(RunInShort {
        end: ended.end,
        stops: ended.seen.stops,
        bytes: ended.seen.bytes,
        last: ended.seen.last,
        at: ended.at,
    })
}
