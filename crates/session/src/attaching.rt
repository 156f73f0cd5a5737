//! The session of a saved image.

ghost use Rattle.command_line.specs.Job as given;
ghost use Rattle.session.specs.Ending.{EndsWithoutPasses};

use crate::loading::load_attached;
use crate::playing::play;
use crate::preparing::{read_script, view_image};
use command_line::Attach;
use line_form::Status;
use outside::{Shelf, Sink};
use std::alloc::Global;

/// Loads an image, a script and an input, and puts out the transcript of the script. Nothing is saved.
pub fn attach<S: Shelf, K: Sink>(alloc: Global, job: &Attach, shelf: &mut S, sink: &mut K) -> Status
    ensures { EndsWithoutPasses (given.attach (given.attach_given job.now))
        (record { shelf = S.state shelf.old; sink = K.state sink.old })
        result
        (record { shelf = S.state shelf.new; sink = K.state sink.new }) }
{
    let texts = match load_attached(alloc, shelf, job) {
        Ok(texts) => texts,
        Err(status) => return status,
    };
    let image = match view_image(alloc, &texts.image) {
        Ok(image) => image,
        Err(status) => return status,
    };
    let commands = match read_script(alloc, &texts.script) {
        Ok(commands) => commands,
        Err(status) => return status,
    };
    let limit = u64::from(job.limit);
    match play(alloc, &image, &commands, &texts.input, limit, sink) {
        Ok(()) => Status::Done,
        Err(status) => status,
    }
}
