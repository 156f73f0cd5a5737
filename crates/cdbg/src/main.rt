//! cdbg: compiles a C program to RISC-V code, and debugs it at source level.
#![tactic(auto)]

#[cfg(test)]
mod tests;

use cdbg_passes::{CopyPropagation, DeadRemoval, LazyMotion};
use line_form::{Status, fault_text};
use outside::{FileShelf, Shelf, Sink, StdoutSink};
use pass_law::Pass;
use session::session;
use std::alloc::{AllocError, Global};
use std::process::ExitCode;
use std::{env, io};

/// All words of the command line, the program's own name first.
fn words_of(rt: &HostRuntime) -> io::Result<Vec<String>> {
    let mut words = Vec::new(rt.alloc());
    for word in env::args(rt)? {
        words.push(word)?;
    }
    Ok(words)
}

/// The status of a session to which the passes `copy`, `motion` and `dead` are handed in. The only error is want of
/// memory for these.
fn session_of<S: Shelf, K: Sink>(
    alloc: Global,
    words: &[String],
    shelf: &mut S,
    sink: &mut K,
) -> Result<Status, AllocError> {
    let mut passes: Vec<Box<dyn Pass>> = Vec::new(alloc);
    passes.push(Box::new(alloc, CopyPropagation::new())?)?;
    passes.push(Box::new(alloc, LazyMotion::new())?)?;
    passes.push(Box::new(alloc, DeadRemoval::new())?)?;
    Ok(session(alloc, words, &passes, shelf, sink))
}

/// The status of a session over the real files and standard output. A word that is no text is no job.
fn status_of(rt: &HostRuntime) -> Status {
    let words = match words_of(rt) {
        Ok(words) => words,
        Err(error) if error.kind() == io::ErrorKind::OutOfMemory => return Status::NoMemory,
        Err(_) => return Status::Usage,
    };
    let Ok(files) = rt.clone() else {
        return Status::NoMemory;
    };
    let Ok(output) = rt.clone() else {
        return Status::NoMemory;
    };
    let mut shelf = FileShelf::new(files);
    let mut sink = StdoutSink::new(output);
    match session_of(rt.alloc(), &words, &mut shelf, &mut sink) {
        Ok(status) => status,
        Err(_) => Status::NoMemory,
    }
}

/// Says on standard error why the session was not done, and gives the status that is said: want of memory where its
/// text is refused memory.
fn tell(rt: &HostRuntime, status: Status) -> Status {
    if status == Status::Done {
        return status;
    }
    match fault_text(rt.alloc(), &status) {
        Ok(text) => {
            let _ = eprintln!(rt; "{text}");
            status
        }
        Err(_) => {
            let _ = eprintln!(rt; "cdbg: out of memory");
            Status::NoMemory
        }
    }
}

fn main(rt: HostRuntime) -> ExitCode {
    let status = tell(&rt, status_of(&rt));
    ExitCode::from(status.number())
}
