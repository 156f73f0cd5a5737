//! The compilation of a source.

ghost use Rattle.outside.specs.States.{SinkState};
ghost use Rattle.command_line.specs.Job as given;
ghost use Rattle.session.specs.Ending.{Ends};
ghost use Rattle.session.specs.Served.{CanRun};
ghost use Rattle.session.specs.Stages.{MakeEnds};

use crate::loading::{load_source, save_image};
use crate::preparing;
use crate::preparing::Made;
use command_line::Compile;
use line_form::Status;
use outside::Shelf;
use pass_law::Pass;
use std::alloc::Global;

/// The image of the source of a job, and its bytes.
fn make(
    alloc: Global,
    source: &[u8],
    passes: &[Box<dyn Pass>],
    job: &Compile,
) -> Result<Made, Status>
    requires { CanRun (λ p. named p) passes.now (given.compile_given job.now).passes }
    ensures { MakeEnds (λ p. named p) (λ p. (steps p).leads) passes.now result source.now
        (given.compile_given job.now).passes job.now.mode }
{
    preparing::make(alloc, source, passes, &job.passes, job.mode)
}

/// Loads a source, compiles it and saves the image. Nothing is put out, whatever a sink took before.
pub fn save_compiled<S: Shelf>(
    alloc: Global,
    job: &Compile,
    passes: &[Box<dyn Pass>],
    shelf: &mut S,
) -> Status
    requires { CanRun (λ p. named p) passes.now (given.compile_given job.now).passes }
    ensures { (sink : SinkState) →
        Ends (λ p. named p) (λ p. (steps p).leads) passes.now (given.compile (given.compile_given job.now))
        (record { shelf = S.state shelf.old; sink = sink })
        result
        (record { shelf = S.state shelf.new; sink = sink }) }
{
    let source = match load_source(alloc, shelf, job.source.as_str()) {
        Ok(source) => source,
        Err(status) => return status,
    };
    let made = match make(alloc, &source, passes, job) {
        Ok(made) => made,
        Err(status) => return status,
    };
    match save_image(alloc, shelf, job.image.as_str(), &made.bytes) {
        Ok(()) => Status::Done,
        Err(status) => status,
    }
}
