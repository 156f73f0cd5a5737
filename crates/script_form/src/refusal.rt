//! How a script is refused.

ghost use Rattle.std.specs.Prelude.{◌≡◌};
ghost use Rattle.script_form.specs.declared.refusal.ScriptErr.TheVariants.{NoMemory};

use debug_records::Code;
use std::alloc::{AllocError, AllocFailed};
use thiserror::Error;

/// Why a script was not read.
#[derive(Clone, Copy, Debug, PartialEq, Eq, Error)]
pub enum ScriptErr {
    /// The text breaks the rule of the code, on this line, counted from 1.
    #[error("script refused {0} line {1}")]
    Refused(Code, usize),
    /// Memory was wanting.
    #[error("out of memory")]
    NoMemory,
}

impl From<AllocError> for ScriptErr {
    ghost from_gives = { λ _ error. error ≡ NoMemory };

    fn from(_: AllocError) -> ScriptErr {
        ScriptErr::NoMemory
    }
}

impl<T: Drop> From<AllocFailed<T>> for ScriptErr {
    ghost from_gives = { λ _ error. error ≡ NoMemory };

    fn from(_: AllocFailed<T>) -> ScriptErr {
        ScriptErr::NoMemory
    }
}
