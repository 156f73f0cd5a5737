//! The outside world as a session is lent it: a shelf of named texts and a sink of bytes.
#![tactic(auto)]

mod file_shelf;
mod memory_shelf;
mod memory_sink;
mod numbered_calls;
mod quiet_sink;
mod shelf;
mod sink;
mod stdout_sink;
mod streams;
mod torn_shelf;

pub use file_shelf::FileShelf;
pub use memory_shelf::MemShelf;
pub use memory_sink::MemSink;
pub use quiet_sink::QuietSink;
pub use shelf::{Shelf, ShelfErr};
pub use sink::{PutErr, Sink};
pub use stdout_sink::StdoutSink;
pub use torn_shelf::TornShelf;
