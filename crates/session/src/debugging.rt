//! The session of a source.

ghost use Rattle.command_line.specs.Job as given;
ghost use Rattle.session.specs.Ending.{Ends};
ghost use Rattle.session.specs.Served.{CanRun};
ghost use Rattle.session.specs.Stages.{MakeEnds};

use crate::loading::{load_texts, save_image};
use crate::playing::play;
use crate::preparing;
use crate::preparing::{Made, read_script};
use command_line::Debug;
use image_form::View;
use line_form::Status;
use outside::{Shelf, Sink};
use pass_law::Pass;
use std::alloc::Global;

/// The image of the source of a job, and its bytes.
fn make(alloc: Global, source: &[u8], passes: &[Box<dyn Pass>], job: &Debug) -> Result<Made, Status>
    requires { CanRun (λ p. named p) passes.now (given.debug_given job.now).passes }
    ensures { MakeEnds (λ p. named p) (λ p. (steps p).leads) passes.now result source.now
        (given.debug_given job.now).passes job.now.mode }
{
    preparing::make(alloc, source, passes, &job.passes, job.mode)
}

/// Loads the texts, compiles the source, saves the image and puts out the transcript of the script.
pub fn debug<S: Shelf, K: Sink>(
    alloc: Global,
    job: &Debug,
    passes: &[Box<dyn Pass>],
    shelf: &mut S,
    sink: &mut K,
) -> Status
    requires { CanRun (λ p. named p) passes.now (given.debug_given job.now).passes }
    ensures { Ends (λ p. named p) (λ p. (steps p).leads) passes.now (given.debug (given.debug_given job.now))
        (record { shelf = S.state shelf.old; sink = K.state sink.old })
        result
        (record { shelf = S.state shelf.new; sink = K.state sink.new }) }
{
    let texts = match load_texts(alloc, shelf, job) {
        Ok(texts) => texts,
        Err(status) => return status,
    };
    let made = match make(alloc, &texts.source, passes, job) {
        Ok(made) => made,
        Err(status) => return status,
    };
    let commands = match read_script(alloc, &texts.script) {
        Ok(commands) => commands,
        Err(status) => return status,
    };
    match save_image(alloc, shelf, job.image.as_str(), &made.bytes) {
        Ok(()) => {}
        Err(status) => return status,
    }
    let image = View::of_spelling(&made.bytes);
    let limit = u64::from(job.limit);
    match play(alloc, &image, &commands, &texts.input, limit, sink) {
        Ok(()) => Status::Done,
        Err(status) => status,
    }
}
