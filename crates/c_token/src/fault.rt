//! Why no token is read.

ghost use Rattle.std.specs.Prelude.{◌≡◌};
ghost use Rattle.c_token.specs.declared.fault.TokenErr.TheVariants.{Broken, NoMemory};

use debug_records::Code;
use std::alloc::{AllocError, AllocFailed};

/// A broken rule, and the offset of the byte whose line is told with it.
#[derive(Clone, Copy, PartialEq, Eq)]
pub struct Fault {
    pub code: Code,
    pub at: usize,
}

/// Why what stands at a byte was not read.
#[derive(Clone, Copy, PartialEq, Eq)]
pub enum TokenErr {
    /// The text breaks a rule.
    Broken(Fault),
    /// Memory was wanting.
    NoMemory,
}

impl From<Fault> for TokenErr {
    ghost from_gives = { λ fault error. error ≡ Broken fault };

    fn from(fault: Fault) -> TokenErr {
        TokenErr::Broken(fault)
    }
}

impl From<AllocError> for TokenErr {
    ghost from_gives = { λ _ error. error ≡ NoMemory };

    fn from(_error: AllocError) -> TokenErr {
        TokenErr::NoMemory
    }
}

impl<T: Drop> From<AllocFailed<T>> for TokenErr {
    ghost from_gives = { λ _ error. error ≡ NoMemory };

    fn from(_error: AllocFailed<T>) -> TokenErr {
        TokenErr::NoMemory
    }
}
