//! Nodes of typed trees, and the way out of a function that makes them.

ghost use Rattle.std.specs.Prelude.{◌≡◌, IfOk};

use std::alloc::{AllocError, Global};

/// What a call gives, where it fails with the very error of the function that it stands in. A `match` in place of `?`,
/// since this is proved in less time.
#[macro_export]
macro_rules! given {
    ($e:expr) => {
        match $e {
            Ok(value) => value,
            Err(fault) => return Err(fault),
        }
    };
}

/// A node on the heap.
pub fn node<T: Drop>(alloc: Global, inner: T) -> Result<Box<T>, AllocError>
    ensures { IfOk result (λ b. b.value ≡ inner) }
{
    Ok(Box::new(alloc, inner)?)
}
