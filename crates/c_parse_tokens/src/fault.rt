//! Why a list of tokens has no tree.

ghost use Rattle.std.specs.Prelude.{◌≡◌};
ghost use Rattle.c_parse_tokens.specs.declared.fault.ParseErr.TheVariants.{NoMemory};

use debug_records::Code;
use std::alloc::{AllocError, AllocFailed};

/// What a call gives, where it fails with the very error of the function that it stands in. A `match` in place of `?`,
/// since this is proved in less time.
#[macro_export]
macro_rules! given {
    ($call:expr) => {
        match $call {
            Ok(value) => value,
            Err(fault) => return Err(fault),
        }
    };
}

/// Where reading stops.
#[derive(Clone, Copy)]
pub enum Stuck {
    /// Before a token, for the rule of the code, on the token's line.
    At(Code, u32),
    /// At the end of the tokens.
    AtEnd,
}

/// Why reading gives nothing.
#[derive(Clone, Copy)]
pub enum ParseErr {
    /// It stops.
    Stuck(Stuck),
    /// Memory was refused.
    NoMemory,
}

impl From<AllocError> for ParseErr {
    ghost from_gives = { λ _ e. e ≡ NoMemory };

    fn from(_error: AllocError) -> ParseErr {
        ParseErr::NoMemory
    }
}

impl<T: Drop> From<AllocFailed<T>> for ParseErr {
    ghost from_gives = { λ _ e. e ≡ NoMemory };

    fn from(_error: AllocFailed<T>) -> ParseErr {
        ParseErr::NoMemory
    }
}
