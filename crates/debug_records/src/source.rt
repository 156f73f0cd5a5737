//! Where things stand in a source, and how it is refused.

ghost use Rattle.std.specs.Prelude.{◌≡◌};
ghost use Rattle.debug_records.specs.declared.source.SourceErr.TheVariants.{NoMemory};

use crate::code::Code;
use std::alloc::{AllocError, AllocFailed};
use thiserror::Error;

/// Where a token of a source begins.
#[derive(Clone, Copy, Default, PartialEq, Eq)]
pub struct Spot {
    /// The offset of its first byte, from 0.
    pub at: u32,
    /// The line of its first byte, from 1.
    pub line: u32,
}

/// Why a source gives no program.
#[derive(Clone, Copy, Debug, PartialEq, Eq, Error)]
pub enum SourceErr {
    /// It breaks the rule of the code, on this line, counted from 1.
    #[error("source refused {0} line {1}")]
    Refused(Code, u32),
    /// Memory was wanting.
    #[error("out of memory")]
    NoMemory,
}

impl From<AllocError> for SourceErr {
    ghost from_gives = { λ _ e. e ≡ NoMemory };

    fn from(_error: AllocError) -> SourceErr {
        SourceErr::NoMemory
    }
}

impl<T: Drop> From<AllocFailed<T>> for SourceErr {
    ghost from_gives = { λ _ e. e ≡ NoMemory };

    fn from(_error: AllocFailed<T>) -> SourceErr {
        SourceErr::NoMemory
    }
}
