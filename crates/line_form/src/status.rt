//! How a session ends.

ghost use Rattle.std.specs.Prelude.{◌≡◌, IfOk, string_bytes};
ghost use Rattle.line_form.specs.Status.{fault_text, status_number};

use debug_records::Code;
use std::alloc::{AllocError, Global};

/// How a session ends.
#[derive(Drop, PartialEq, Eq)]
pub enum Status {
    /// The job was done to its end.
    Done,
    /// The words of the command line are no job.
    Usage,
    /// The source breaks the rule of the code, on this line, counted from 1.
    SourceRefused(Code, u32),
    /// The script breaks the rule of the code, on this line, counted from 1.
    ScriptRefused(Code, usize),
    /// A text could not be read.
    ReadFault,
    /// The image or a line of the transcript could not be written.
    WriteFault,
    /// Memory was wanting.
    NoMemory,
    /// The bytes are no image: the code of the first rule that they break, and the byte, counted from 0, at which they
    /// do.
    ImageRefused(Code, usize),
    /// The text of this name is longer than its limit.
    TooLong(String),
    /// The transcript breaks the rule of the code, on this line, counted from 1, or the image breaks it, with line 0.
    AuditFailed(Code, u32),
}

impl Status {
    /// The number that the program ends with.
    pub fn number(&self) -> u8
        ensures { result ≡ status_number self.now }
    {
        match self {
            Status::Done => 0,
            Status::Usage => 2,
            Status::SourceRefused(_, _) => 3,
            Status::ScriptRefused(_, _) => 4,
            Status::ReadFault => 5,
            Status::WriteFault => 6,
            Status::NoMemory => 7,
            Status::ImageRefused(_, _) => 8,
            Status::TooLong(_) => 9,
            Status::AuditFailed(_, _) => 10,
        }
    }
}

/// The message of a status, without a line end; empty where the job was done. `AllocError` where memory for it was
/// refused.
pub fn fault_text(alloc: Global, status: &Status) -> Result<String, AllocError>
    ensures { IfOk result (λ text. string_bytes text ≡ fault_text status.now) }
{
    match status {
        Status::Done => Ok(String::new(alloc)),
        Status::Usage => String::from_str(alloc, "cdbg: usage"),
        Status::SourceRefused(code, line) => {
            format!(in alloc; "cdbg: source refused {code} line {line}")
        }
        Status::ScriptRefused(code, line) => {
            format!(in alloc; "cdbg: script refused {code} line {line}")
        }
        Status::ReadFault => String::from_str(alloc, "cdbg: read failed"),
        Status::WriteFault => String::from_str(alloc, "cdbg: write failed"),
        Status::NoMemory => String::from_str(alloc, "cdbg: out of memory"),
        Status::ImageRefused(code, offset) => {
            format!(in alloc; "cdbg: image refused {code} offset {offset}")
        }
        Status::TooLong(name) => format!(in alloc; "cdbg: too long {name}"),
        Status::AuditFailed(rule, line) => format!(in alloc; "cdbg: audit no {rule} line {line}"),
    }
}
