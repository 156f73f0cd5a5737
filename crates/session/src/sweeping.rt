//! The generated program, compiled and run to its end.

ghost use Rattle.std.specs.Prelude.{◌≡◌, ◌≤◌, IfOk, map};
ghost use Rattle.outside.specs.States.{ShelfState};
ghost use Rattle.command_line.specs.Job as given;
ghost use Rattle.session.specs.Ending.{Ends};
ghost use Rattle.session.specs.Served.{CanRun, default_names};
ghost use Rattle.session.specs.Stages.{IsSummaryOf, SweepEnds};
ghost use Rattle.session.specs.Summing.{ending_line, summary_lines, sweep_limit};

use crate::asking::default_names;
use crate::playing::put_lines;
use crate::preparing::make;
use command_line::Sweep;
use debug_records::Mode;
use image_form::View;
use line_form::{Status, depth_line, exit_line, fault_line, limit_line};
use outside::Sink;
use pass_law::Pass;
use session_lines::{Summary, out_count_line, pairs_line, seed_line, stops_line, summarize};
use std::alloc::{AllocError, Global};
use stop_engine::Halt;
use work_gen::source;

// How many instructions the run has at most.
#[tactic(auto, unfolding(crate::specs::Summing::sweep_limit))]
fn most_instructions() -> u32
    ensures { result ≡ sweep_limit }
{
    10_000_000
}

/// The line of the end of a run.
fn ending_line(alloc: Global, halt: Halt) -> Result<Vec<u8>, AllocError>
    ensures { IfOk result (λ text. text.items ≡ ending_line halt) }
{
    match halt {
        Halt::At { .. } => Ok(Vec::new(alloc)),
        Halt::Exited(status) => exit_line(alloc, status),
        Halt::Depth => depth_line(alloc),
        Halt::Fault(address) => fault_line(alloc, address),
        Halt::Limit => limit_line(alloc, u64::from(most_instructions())),
    }
}

/// The five lines of a summary.
fn summary_lines(alloc: Global, job: &Sweep, summary: &Summary) -> Result<Vec<Vec<u8>>, AllocError>
    ensures { IfOk result (λ lines.
        map (λ line. line.items) lines.items ≡ summary_lines job.now.seed job.now.size summary.now) }
{
    let counts = summary.counts;
    let mut lines = Vec::new(alloc);
    lines.push(seed_line(alloc, job.seed, job.size)?)?;
    lines.push(stops_line(alloc, counts.stops)?)?;
    lines.push(pairs_line(alloc, counts.pairs)?)?;
    lines.push(out_count_line(alloc, counts.out)?)?;
    lines.push(ending_line(alloc, summary.ending)?)?;
    Ok(lines)
}

/// The summary of the run of the generated program, with the passes and the homes that are the default.
fn swept(alloc: Global, job: &Sweep, passes: &[Box<dyn Pass>]) -> Result<Summary, Status>
    requires { CanRun (λ p. named p) passes.now default_names }
    ensures { SweepEnds (λ p. named p) (λ p. (steps p).leads) passes.now result (given.sweep_given job.now) }
{
    let Ok(text) = source(alloc, job.seed, job.size) else {
        return Err(Status::NoMemory);
    };
    let Ok(names) = default_names(alloc) else {
        return Err(Status::NoMemory);
    };
    let made = make(alloc, &text, passes, &names, Mode::Registers)?;
    let image = View::of_spelling(&made.bytes);
    match summarize(alloc, &image, &[], most_instructions()) {
        Ok(summary) => Ok(summary),
        Err(_) => Err(Status::NoMemory),
    }
}

/// Generates the program of a seed and a size, compiles it with the default passes and with homes in registers, steps
/// its run on no input to its end, and counts what is seen. The passes are those that are handed in, `copy`, `motion`
/// and `dead` among them. The only error is want of memory: what is generated breaks no rule of C.
pub fn sweep(
    alloc: Global,
    seed: u32,
    size: u32,
    passes: &[Box<dyn Pass>],
) -> Result<Summary, AllocError>
    requires size { size ≤ 400 }
    requires run { CanRun (λ p. named p) passes.now default_names }
    ensures { IfOk result (λ summary.
        IsSummaryOf (λ p. named p) (λ p. (steps p).leads) passes.now seed size summary) }
{
    match swept(alloc, &Sweep { seed, size }, passes) {
        Ok(summary) => Ok(summary),
        Err(Status::SourceRefused(_, _)) => unreachable!(),
        Err(_) => Err(AllocError),
    }
}

/// Generates a program, compiles it, steps its run to the end, and puts out the summary. Nothing is loaded or saved,
/// whatever a shelf holds.
pub fn put_summary<K: Sink>(
    alloc: Global,
    job: &Sweep,
    passes: &[Box<dyn Pass>],
    sink: &mut K,
) -> Status
    requires { CanRun (λ p. named p) passes.now default_names }
    ensures { (shelf : ShelfState) →
        Ends (λ p. named p) (λ p. (steps p).leads) passes.now (given.sweep (given.sweep_given job.now))
        (record { shelf = shelf; sink = K.state sink.old })
        result
        (record { shelf = shelf; sink = K.state sink.new }) }
{
    let summary = match swept(alloc, job, passes) {
        Ok(summary) => summary,
        Err(status) => return status,
    };
    let Ok(lines) = summary_lines(alloc, job, &summary) else {
        return Status::NoMemory;
    };
    match put_lines(alloc, &lines, sink) {
        Ok(()) => Status::Done,
        Err(status) => status,
    }
}
