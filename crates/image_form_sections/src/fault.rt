//! Why bytes are no image.

ghost use Rattle.std.specs.Prelude.{◌≡◌};
ghost use Rattle.image_form_sections.specs.declared.fault.ImageErr.TheVariants.{NoMemory};

use debug_records::Code;
use std::alloc::{AllocError, AllocFailed};
use thiserror::Error;

/// Why bytes were not read.
#[derive(Clone, Copy, Debug, PartialEq, Eq, Error)]
pub enum ImageErr {
    /// The bytes are no image: the code of the first rule that they break, and the byte, counted from 0, at which they
    /// do.
    #[error("image refused {0} offset {1}")]
    Refused(Code, usize),
    /// Memory was wanting.
    #[error("out of memory")]
    NoMemory,
}

impl From<AllocError> for ImageErr {
    ghost from_gives = { λ _ e. e ≡ NoMemory };

    fn from(_error: AllocError) -> ImageErr {
        ImageErr::NoMemory
    }
}

impl<T: Drop> From<AllocFailed<T>> for ImageErr {
    ghost from_gives = { λ _ e. e ≡ NoMemory };

    fn from(_error: AllocFailed<T>) -> ImageErr {
        ImageErr::NoMemory
    }
}
