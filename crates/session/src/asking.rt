//! What the words ask for.

ghost use Rattle.std.specs.Prelude.{◌≡◌, ◌↔◌, IfOk, IsTrue, map, string_bytes};
ghost use Rattle.debug_records.specs.Change.{letters};
ghost use Rattle.command_line.specs.Job.{job_given};
ghost use Rattle.pass_law.specs.HandedIn.{AreHandedIn};
ghost use Rattle.session.specs.Served.{default_names, needed};
ghost use Rattle.session.specs.Stages.{AskEnds, CheckEnds};

use command_line::{Job, job_of};
use debug_records::PassName;
use line_form::Status;
use pass_law::{Pass, are_handed_in, name_of};
use std::alloc::{AllocError, Global};

/// The names of the passes that a `sweep` runs.
pub fn default_names(alloc: Global) -> Result<Vec<PassName>, AllocError>
    ensures { IfOk result (λ names. map letters names.items ≡ default_names) }
{
    let mut names = Vec::new(alloc);
    names.push(name_of(b"copy"))?;
    names.push(name_of(b"motion"))?;
    names.push(name_of(b"dead"))?;
    Ok(names)
}

/// Whether each pass that a job needs is handed in.
fn has_passes(alloc: Global, job: &Job, passes: &[Box<dyn Pass>]) -> Result<bool, AllocError>
    ensures { IfOk result (λ has. IsTrue has ↔ AreHandedIn (λ p. named p) passes.now (needed (job_given job.now))) }
{
    match job {
        Job::Debug(job) => Ok(are_handed_in(passes, &job.passes)),
        Job::Compile(job) => Ok(are_handed_in(passes, &job.passes)),
        Job::Attach(_job) => Ok(true),
        Job::Passes(job) => Ok(are_handed_in(passes, &job.passes)),
        Job::Sweep(_job) => {
            let names = default_names(alloc)?;
            Ok(are_handed_in(passes, &names))
        }
    }
}

/// A job, where each pass that it needs is handed in; else `Usage`.
fn checked(alloc: Global, job: Job, passes: &[Box<dyn Pass>]) -> Result<Job, Status>
    ensures { CheckEnds (λ p. named p) passes.now result job }
{
    match has_passes(alloc, &job, passes) {
        Ok(true) => Ok(job),
        Ok(false) => Err(Status::Usage),
        Err(_) => Err(Status::NoMemory),
    }
}

/// The job that the words are. `Usage` where they are none, or one that needs a pass that is not handed in, and
/// `NoMemory` where memory was wanting.
pub fn asked(alloc: Global, words: &[String], passes: &[Box<dyn Pass>]) -> Result<Job, Status>
    ensures { AskEnds (λ p. named p) passes.now result (map string_bytes words.now) }
{
    let Ok(found) = job_of(alloc, words) else {
        return Err(Status::NoMemory);
    };
    match found {
        Some(job) => checked(alloc, job, passes),
        None => Err(Status::Usage),
    }
}
