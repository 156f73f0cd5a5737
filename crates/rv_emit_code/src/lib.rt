//! Code of functions that does not depend on where it stands.
#![tactic(auto)]

mod block;
mod ending;
mod function;
mod leaving;

pub use block::{BlockCode, code_of_block};
pub use ending::opposite;
pub use function::{begin_of_function, stub};
pub use leaving::end_of_function;
pub use rv_emit_words::words_of_constant;
