//! cdefined: says whether C defines the whole run of a program on an input.
#![tactic(auto)]

ghost use Rattle.std.specs.Prelude.{◌<◌};

mod asking;
mod telling;

use crate::asking::{Asked, asked_by};
use crate::telling::line_of;
use c_meaning_eval::eval_in_short;
use c_source::program;
use debug_records::SourceErr;
use line_form::{Status, fault_text};
use outside::{FileShelf, PutErr, Shelf, ShelfErr, Sink, StdoutSink};
use std::alloc::Global;
use std::process::ExitCode;
use std::{env, io};

/// How many bytes a source has at most; of a longer one a byte more is loaded, and the source is refused for that.
const MOST_SOURCE: u32 = 1048576;

/// How many bytes an input has at most.
const MOST_INPUT: u32 = 16777216;

/// All words of the command line, the program's own name first.
fn words_of(rt: &HostRuntime) -> io::Result<Vec<String>> {
    let mut words = Vec::new(rt.alloc());
    for word in env::args(rt)? {
        words.push(word)?;
    }
    Ok(words)
}

/// The first bytes of a text, one more than its limit where it is longer.
fn load<S: Shelf>(alloc: Global, shelf: &mut S, name: &str, limit: u32) -> Result<Vec<u8>, Status>
    requires { limit < 4294967295 }
{
    match shelf.load(alloc, name, limit) {
        Ok(text) => Ok(text),
        Err(ShelfErr::Failed) => Err(Status::ReadFault),
        Err(ShelfErr::NoMemory) => Err(Status::NoMemory),
    }
}

/// An input, which is refused where it is longer than its limit.
fn load_input<S: Shelf>(alloc: Global, shelf: &mut S, name: &str) -> Result<Vec<u8>, Status> {
    let input = load(alloc, shelf, name, MOST_INPUT)?;
    if input.len() <= MOST_INPUT as usize {
        return Ok(input);
    }
    match String::from_str(alloc, name) {
        Ok(name) => Err(Status::TooLong(name)),
        Err(_) => Err(Status::NoMemory),
    }
}

/// The line that answers what was asked.
fn answer<S: Shelf>(alloc: Global, asked: &Asked<'_>, shelf: &mut S) -> Result<String, Status> {
    let text = load(alloc, shelf, asked.source, MOST_SOURCE)?;
    let input = load_input(alloc, shelf, asked.input)?;
    let source = match program(alloc, &text) {
        Ok(source) => source,
        Err(SourceErr::Refused(code, line)) => return Err(Status::SourceRefused(code, line)),
        Err(SourceErr::NoMemory) => return Err(Status::NoMemory),
    };
    let Ok(run) = eval_in_short(alloc, &source, &input, asked.turns) else {
        return Err(Status::NoMemory);
    };
    match line_of(alloc, &source, asked.turns, &run) {
        Ok(line) => Ok(line),
        Err(_) => Err(Status::NoMemory),
    }
}

/// Answers what was asked over a shelf and a sink.
fn status_over<S: Shelf, K: Sink>(
    alloc: Global,
    words: &[String],
    shelf: &mut S,
    sink: &mut K,
) -> Status {
    let Some(asked) = asked_by(words) else {
        return Status::Usage;
    };
    let line = match answer(alloc, &asked, shelf) {
        Ok(line) => line,
        Err(status) => return status,
    };
    match sink.put(alloc, line.as_bytes()) {
        Ok(()) => Status::Done,
        Err(PutErr::Failed) => Status::WriteFault,
        Err(PutErr::NoMemory) => Status::NoMemory,
    }
}

/// The status over the real files and standard output. A word that is no text asks for nothing.
fn status_of(rt: &HostRuntime) -> Status {
    let words = match words_of(rt) {
        Ok(words) => words,
        Err(error) if error.kind() == io::ErrorKind::OutOfMemory => return Status::NoMemory,
        Err(_) => return Status::Usage,
    };
    let Ok(files) = rt.clone() else {
        return Status::NoMemory;
    };
    let Ok(output) = rt.clone() else {
        return Status::NoMemory;
    };
    let mut shelf = FileShelf::new(files);
    let mut sink = StdoutSink::new(output);
    status_over(rt.alloc(), &words, &mut shelf, &mut sink)
}

/// Says on standard error why there is no answer, in the words of `cdbg` under this program's name, and gives the
/// status
/// that is said: want of memory where its text is refused memory.
fn tell(rt: &HostRuntime, status: Status) -> Status {
    if status == Status::Done {
        return status;
    }
    match fault_text(rt.alloc(), &status) {
        Ok(text) => {
            let cause = text.as_str().strip_prefix("cdbg").unwrap_or("");
            let _ = eprintln!(rt; "cdefined{cause}");
            status
        }
        Err(_) => {
            let _ = eprintln!(rt; "cdefined: out of memory");
            Status::NoMemory
        }
    }
}

fn main(rt: HostRuntime) -> ExitCode {
    let status = tell(&rt, status_of(&rt));
    ExitCode::from(status.number())
}
