//! Sessions of sources, as tables say them.

use super::attaching::attach;
use super::{run, split};
use line_form::{Status, fault_text};
use outside::{MemShelf, MemSink, Shelf};
use std::alloc::{AllocError, Global};
use std::process::Abort;

pub(super) const IN_SLOTS: &str =
    "cdbg debug --passes none --homes slots program.c script input image";

/// A session of a source.
pub(super) struct Session {
    /// What it shows.
    pub(super) shows: &'static str,
    pub(super) source: &'static [u8],
    pub(super) script: &'static [u8],
    pub(super) input: &'static [u8],
    /// What it prints.
    pub(super) printed: &'static [u8],
}

/// A shelf with a source, a script and an input.
pub(super) fn shelf(
    alloc: Global,
    source: &[u8],
    script: &[u8],
    input: &[u8],
) -> Result<MemShelf, AllocError> {
    let mut shelf = MemShelf::new(alloc, [].as_slice())?;
    shelf.place(alloc, "program.c", source)?;
    shelf.place(alloc, "script", script)?;
    shelf.place(alloc, "input", input)?;
    Ok(shelf)
}

/// How a session ended.
#[derive(Drop)]
pub(super) struct Ending {
    pub(super) status: Status,
    /// What was put out.
    pub(super) taken: Vec<u8>,
    /// The bytes of the image that is held; none where there is no image.
    pub(super) image: Vec<u8>,
}

/// The bytes of the image that is held; none where there is no image.
pub(super) fn image_of(alloc: Global, shelf: &MemShelf) -> Result<Vec<u8>, AllocError> {
    match shelf.held("image") {
        Some(image) => image.to_vec(alloc),
        None => Ok(Vec::new(alloc)),
    }
}

/// The status of the job of these words over a shelf, with a sink whose calls of these numbers fail, and what was put
/// out.
pub(super) fn outcome<S: Shelf>(
    alloc: Global,
    words: &str,
    shelf: &mut S,
    fails: &[u64],
) -> Result<(Status, Vec<u8>), AllocError> {
    let words = split(alloc, words)?;
    let mut sink = MemSink::new(alloc, fails)?;
    let status = run(alloc, &words, shelf, &mut sink);
    let taken = sink.bytes().to_vec(alloc)?;
    Ok((status, taken))
}

/// How the job of these words ends over a shelf, with a sink whose calls of these numbers fail.
pub(super) fn ended(
    alloc: Global,
    words: &str,
    shelf: &mut MemShelf,
    fails: &[u64],
) -> Result<Ending, AllocError> {
    let (status, taken) = outcome(alloc, words, shelf, fails)?;
    let image = image_of(alloc, shelf)?;
    Ok(Ending {
        status,
        taken,
        image,
    })
}

/// A session ended with this status and this on standard error, and put out and saved nothing.
pub(super) fn assert_refused(
    rt: &impl Abort,
    alloc: Global,
    ended: &Ending,
    number: u8,
    fault: &str,
) -> Result<(), AllocError> {
    assert!(rt; ended.status.number() == number);
    assert!(rt; fault_text(alloc, &ended.status)?.as_str() == fault);
    assert!(rt; ended.taken.is_empty() && ended.image.is_empty());
    Ok(())
}

/// Whether the job of these words is done and prints this.
pub(super) fn prints(
    alloc: Global,
    words: &str,
    shelf: &mut MemShelf,
    printed: &[u8],
) -> Result<bool, AllocError> {
    let ended = ended(alloc, words, shelf, [].as_slice())?;
    Ok(ended.status == Status::Done && ended.taken.as_slice() == printed)
}

/// Whether the held image, debugged by the held script, prints this.
pub(super) fn image_prints(
    alloc: Global,
    shelf: &mut MemShelf,
    printed: &[u8],
) -> Result<bool, AllocError> {
    let mut sink = MemSink::new(alloc, [].as_slice())?;
    let status = attach(alloc, shelf, &mut sink)?;
    Ok(status == Status::Done && sink.bytes() == printed)
}

/// Whether a session by these words prints what it should, and so does the image that it saved.
fn holds(alloc: Global, words: &str, session: &Session) -> Result<bool, AllocError> {
    let mut shelf = shelf(alloc, session.source, session.script, session.input)?;
    Ok(
        prints(alloc, words, &mut shelf, session.printed)?
            && image_prints(alloc, &mut shelf, session.printed)?,
    )
}

/// A session by these words prints what it should, and so does the image that it saved.
pub(super) fn assert_session(
    rt: &impl Abort,
    alloc: Global,
    words: &str,
    session: &Session,
) -> Result<(), AllocError> {
    let is_right = holds(alloc, words, session)?;
    assert!(rt; is_right, "{}", session.shows);
    Ok(())
}

/// Sessions by the same words.
pub(super) fn assert_all(
    rt: &impl Abort,
    alloc: Global,
    words: &str,
    sessions: &[Session],
) -> Result<(), AllocError> {
    for session in sessions {
        assert_session(rt, alloc, words, session)?;
    }
    Ok(())
}

/// Sessions by the words of each.
pub(super) fn assert_each(
    rt: &impl Abort,
    alloc: Global,
    sessions: &[(&str, Session)],
) -> Result<(), AllocError> {
    for (words, session) in sessions {
        assert_session(rt, alloc, words, session)?;
    }
    Ok(())
}

/// The job of these words over a source prints this, and saves nothing.
pub(super) fn assert_said(
    rt: &impl Abort,
    alloc: Global,
    words: &str,
    source: &[u8],
    printed: &[u8],
) -> Result<(), AllocError> {
    let mut shelf = shelf(alloc, source, b"".as_slice(), b"".as_slice())?;
    let ended = ended(alloc, words, &mut shelf, [].as_slice())?;
    assert!(rt; ended.status == Status::Done && ended.image.is_empty());
    assert!(rt; ended.taken.as_slice() == printed);
    Ok(())
}
