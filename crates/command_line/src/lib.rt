//! What a command line means: the job that its words are.
#![tactic(auto)]

mod command;
mod job;
mod laws;
mod matching;
mod reading;
mod values;

pub use job::{Attach, Compile, Debug, Job, Passes, Sweep};
pub use laws::words_are_one_job_at_most;
pub use reading::job_of;
