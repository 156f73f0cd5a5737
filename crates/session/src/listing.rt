//! The changes that passes make in a source.

ghost use Rattle.command_line.specs.Job as given;
ghost use Rattle.session.specs.Ending.{Ends};
ghost use Rattle.session.specs.Served.{CanRun};

use crate::loading::load_source;
use crate::playing::put_lines;
use crate::preparing::list;
use command_line::Passes;
use line_form::Status;
use outside::{Shelf, Sink};
use pass_law::Pass;
use std::alloc::Global;

/// Loads a source, and puts out a line for each change that the passes make in it.
pub fn list_changes<S: Shelf, K: Sink>(
    alloc: Global,
    job: &Passes,
    passes: &[Box<dyn Pass>],
    shelf: &mut S,
    sink: &mut K,
) -> Status
    requires { CanRun (λ p. named p) passes.now (given.passes_given job.now).passes }
    ensures { Ends (λ p. named p) (λ p. (steps p).leads) passes.now (given.passes (given.passes_given job.now))
        (record { shelf = S.state shelf.old; sink = K.state sink.old })
        result
        (record { shelf = S.state shelf.new; sink = K.state sink.new }) }
{
    let source = match load_source(alloc, shelf, job.source.as_str()) {
        Ok(source) => source,
        Err(status) => return status,
    };
    let lines = match list(alloc, &source, passes, &job.passes) {
        Ok(lines) => lines,
        Err(status) => return status,
    };
    match put_lines(alloc, &lines, sink) {
        Ok(()) => Status::Done,
        Err(status) => status,
    }
}
