//! Counts of what a session meets that steps to the end.

ghost use Rattle.std.specs.Prelude.{◌≡◌, ◌↔◌, IfOk, IsTrue};
ghost use Rattle.stop_engine.specs.EngineState.{HasExecuted};
ghost use Rattle.image_form.specs.Rules.{IsImage};
ghost use Rattle.image_form.specs.Views.{viewed};
ghost use Rattle.stop_engine_view.specs.Rows.{rows_at};
ghost use Rattle.session_lines.specs.Summary.{IsOneStep, IsStop, IsSummaryOf, IsSummed, with_verdict, counted_all, counted_halt, nothing};

use crate::lines::PairCounts;
use image_form::{Verdict, View};
use std::alloc::{AllocError, Global};
use stop_engine::{Engine, Halt, Stops};
use stop_engine_texts::rows_at;

/// What was counted. A count that would pass 2^64 - 1 stays there.
#[derive(Clone, Copy)]
pub struct Counts {
    /// Stops.
    pub stops: u64,
    /// Variables that are visible at stops, by the verdicts on them.
    pub pairs: PairCounts,
    /// Bytes that the program put out.
    pub out: u64,
}

/// What a run came to.
#[derive(Clone, Copy)]
pub struct Summary {
    pub counts: Counts,
    /// The ending.
    pub ending: Halt,
}

/// Nothing.
fn nothing() -> Counts
    ensures { result ≡ nothing }
{
    let pairs = PairCounts {
        pairs: 0,
        home: 0,
        recovered: 0,
        noncurrent: 0,
        nonresident: 0,
    };
    Counts {
        stops: 0,
        pairs,
        out: 0,
    }
}

/// Counts a visible variable by the verdict on it.
fn count(counts: PairCounts, verdict: Verdict) -> PairCounts
    ensures { result ≡ with_verdict verdict counts }
{
    let mut more = counts;
    match verdict {
        Verdict::Home => more.home = counts.home.saturating_add(1),
        Verdict::Recovered { .. } => more.recovered = counts.recovered.saturating_add(1),
        Verdict::Noncurrent { .. } => more.noncurrent = counts.noncurrent.saturating_add(1),
        Verdict::Nonresident { .. } => more.nonresident = counts.nonresident.saturating_add(1),
    }
    more.pairs = counts.pairs.saturating_add(1);
    more
}

/// Counts the visible variables of a place, by their rows.
fn count_all(image: &View<'_>, place: u32, counts: PairCounts) -> PairCounts
    requires { IsImage (viewed image.now) }
    ensures { result ≡ counted_all (rows_at place (viewed image.now).rows) counts }
{
    let rows = rows_at(image, place);
    let mut more = counts;
    for number in rows.start..rows.end {
        more = count(more, image.row_at(number).verdict);
    }
    more
}

/// Counts what a run halted at, if it is a stop, with the variables that are visible there.
fn count_halt(image: &View<'_>, halt: Halt, counts: &mut Counts)
    requires { IsImage (viewed image.now) }
    ensures { counts.new ≡ counted_halt (viewed image.now) halt counts.old }
{
    match halt {
        Halt::At { place, .. } => {
            counts.stops = counts.stops.saturating_add(1);
            counts.pairs = count_all(image, place, counts.pairs);
        }
        Halt::Exited(_) | Halt::Depth | Halt::Fault(_) | Halt::Limit => {}
    }
}

/// Whether a run halted at a stop.
fn is_stop(halt: Halt) -> bool
    ensures { IsTrue result ↔ IsStop halt }
{
    match halt {
        Halt::At { .. } => true,
        Halt::Exited(_) | Halt::Depth | Halt::Fault(_) | Halt::Limit => false,
    }
}

/// Goes on to the next stop or to the end, and counts what was put out before and the stop.
fn count_step(
    image: &View<'_>,
    engine: &mut Engine<'_>,
    counts: &mut Counts,
) -> Result<Halt, AllocError>
    requires image { IsImage (viewed image.now) }
    requires of { engine.old.run.form ≡ viewed image.now }
    ensures step { IfOk result (λ halt. IsOneStep engine.old.run engine.new.run counts.old counts.new halt) }
    ensures executed { HasExecuted engine.old.run engine.new.run }
{
    let halt = engine.run_to(&Stops::Any)?;
    counts.out = counts.out.saturating_add(engine.taken().len() as u64);
    count_halt(image, halt, counts);
    Ok(halt)
}

/// Steps the run of an engine to its end, from where it stands, and counts each step. `AllocError` where memory for its
/// output was refused.
fn count_steps(image: &View<'_>, engine: &mut Engine<'_>) -> Result<Summary, AllocError>
    requires image { IsImage (viewed image.now) }
    requires of { engine.old.run.form ≡ viewed image.now }
    ensures summary { IfOk result (IsSummaryOf engine.old.run) }
    ensures executed { HasExecuted engine.old.run engine.new.run }
{
    let mut counts = nothing();
    loop {
        let ending = count_step(image, engine, &mut counts)?;
        if !is_stop(ending) {
            return Ok(Summary { counts, ending });
        }
    }
}

/// Steps the run of an image on an input, of at most so many instructions, from stop to stop to its end. `AllocError`
/// where memory for the run was refused.
pub fn summarize(
    alloc: Global,
    image: &View<'_>,
    input: &[u8],
    limit: u32,
) -> Result<Summary, AllocError>
    requires { IsImage (viewed image.now) }
    ensures { IfOk result (λ summary. IsSummed (viewed image.now) input.now limit summary) }
{
    let mut engine = Engine::new(alloc, image, input, u64::from(limit))?;
    Ok(count_steps(image, &mut engine)?)
}
