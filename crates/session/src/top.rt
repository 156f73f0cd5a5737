//! The top call.

ghost use Rattle.std.specs.Prelude.{◌≡◌, ◌≢◌, ◌⊎◌, ℕ, true, List, String, map, string_bytes};
ghost use Rattle.std.specs.Global.{Global};
ghost use Rattle.outside.specs.Counts.{RoseOrStands};
ghost use Rattle.line_form.specs.declared.status.Status.TheVariants.{Done, Usage, SourceRefused, ScriptRefused, ReadFault, WriteFault, NoMemory, ImageRefused, TooLong, AuditFailed};
ghost use Rattle.debug_records.specs.declared.code.Code.{Code};
ghost use Rattle.command_line.specs.Job.{JobGiven, job_given};
ghost use Rattle.session.specs.Served.{AreNotServed, AreServed, CanRun, SavesTo, needed};
ghost use Rattle.session.specs.Limits.{AreWithin, IsTooLong};
ghost use Rattle.session.specs.Causes.{SourceIsRefused, ImageIsRefused, ScriptIsRefused, AreAccepted, HasLoaded, IsEarly, IsCut};
ghost use Rattle.session.specs.Ending.{Ends};
ghost use Rattle.session.specs.Outcome.{HasLeft, HasSaved, IsDone, TookPart};

use crate::asking::asked;
use crate::attaching::attach;
use crate::compiling::save_compiled;
use crate::debugging::debug;
use crate::listing::list_changes;
use crate::sweeping::put_summary;
use command_line::Job;
use line_form::Status;
use outside::{Shelf, Sink};
use pass_law::Pass;
use std::alloc::Global;

// Carries out a job that the program serves.
fn serve<S: Shelf, K: Sink>(
    alloc: Global,
    job: &Job,
    passes: &[Box<dyn Pass>],
    shelf: &mut S,
    sink: &mut K,
) -> Status
    requires { CanRun (λ p. named p) passes.now (needed (job_given job.now)) }
    ensures { Ends (λ p. named p) (λ p. (steps p).leads) passes.now (job_given job.now)
        (record { shelf = S.state shelf.old; sink = K.state sink.old })
        result
        (record { shelf = S.state shelf.new; sink = K.state sink.new }) }
{
    match job {
        Job::Debug(job) => debug(alloc, job, passes, shelf, sink),
        Job::Compile(job) => save_compiled(alloc, job, passes, shelf),
        Job::Attach(job) => attach(alloc, job, shelf, sink),
        Job::Passes(job) => list_changes(alloc, job, passes, shelf, sink),
        Job::Sweep(job) => put_summary(alloc, job, passes, sink),
    }
}

/// One session: the words are the program's own name and then those of a job, which is `debug [--passes LIST] [--homes
/// MODE] [--limit N] SRC SCRIPT INPUT IMAGE`, `compile [--passes LIST] [--homes MODE] SRC IMAGE`, `attach [--limit N]
/// IMAGE SCRIPT INPUT`, `passes [--passes LIST] SRC` or `sweep SEED SIZE`, its options and names in any order. The
/// passes of the list are those that are handed in; of two of one name the first is taken.
///
/// `debug` loads the source, the script and the input from the shelf, in this order, compiles the source, saves the
/// image, and puts the transcript of the script on the sink, each line in one piece. `compile` loads the source,
/// compiles it and saves the image. `attach` loads the image, the script and the input, and puts the transcript.
/// `passes` loads the source, and puts a line for each change that the passes make in it. `sweep` compiles a generated
/// program, steps its run to the end, and puts a summary of five lines. The first fault ends it: `Usage` where the
/// words are no job, or one that needs a pass that is not handed in, `ReadFault` where a load failed, `TooLong` where
/// the image has more than 134,217,728 bytes, the script more than 1,048,576 or the input more than 16,777,216,
/// `ImageRefused` where the bytes of the image spell none, `SourceRefused` where the source breaks a rule of C,
/// `ScriptRefused` where the script is none, `WriteFault` where the save or a line failed, and `NoMemory` where memory
/// was wanting.
pub fn session<S: Shelf, K: Sink>(
    alloc: Global,
    words: &[String],
    passes: &[Box<dyn Pass>],
    shelf: &mut S,
    sink: &mut K,
) -> Status
    // Each fault has its cause, by the order of the stages: the words, the loads with their limits, the image, the source,
    // the script, the save, the lines. And where no cause is there, by the last clause, no fault comes: the job is done, or
    // memory was wanting.
    ensures usage { result ≡ Usage → AreNotServed (λ p. named p) passes.now (map string_bytes words.now) }
    ensures usage_only { AreNotServed (λ p. named p) passes.now (map string_bytes words.now)
        → (result ≡ Usage) ⊎ (result ≡ NoMemory) }
    ensures audit { (rule : Code) (line : ℕ) → result ≢ AuditFailed rule line }
    ensures read { result ≡ ReadFault → RoseOrStands (S.state shelf.old).load_count (S.state shelf.new).load_count }
    ensures read_only { result ≢ ReadFault → (S.state shelf.new).load_count ≡ (S.state shelf.old).load_count }
    ensures too_long { (asked : JobGiven) (name : String Global)
        → AreServed (λ p. named p) passes.now (map string_bytes words.now) asked → result ≡ TooLong name
        → (S.state shelf.old).tells ≡ true → IsTooLong (S.state shelf.old).held asked (string_bytes name) }
    ensures within { (asked : JobGiven) → AreServed (λ p. named p) passes.now (map string_bytes words.now) asked
        → HasLoaded result → (S.state shelf.old).tells ≡ true → AreWithin (S.state shelf.old).held asked }
    ensures image { (asked : JobGiven) (code : Code) (offset : ℕ)
        → AreServed (λ p. named p) passes.now (map string_bytes words.now) asked → result ≡ ImageRefused code offset
        → (S.state shelf.old).tells ≡ true → ImageIsRefused (S.state shelf.old).held asked code offset }
    ensures source { (asked : JobGiven) (code : Code) (line : ℕ)
        → AreServed (λ p. named p) passes.now (map string_bytes words.now) asked → result ≡ SourceRefused code line
        → (S.state shelf.old).tells ≡ true → SourceIsRefused (S.state shelf.old).held asked code line }
    ensures script { (asked : JobGiven) (code : Code) (line : ℕ)
        → AreServed (λ p. named p) passes.now (map string_bytes words.now) asked → result ≡ ScriptRefused code line
        → (S.state shelf.old).tells ≡ true → ScriptIsRefused (S.state shelf.old).held asked code line }
    ensures accepted { (asked : JobGiven) → AreServed (λ p. named p) passes.now (map string_bytes words.now) asked
        → (result ≡ Done) ⊎ (result ≡ WriteFault) → (S.state shelf.old).tells ≡ true
        → AreAccepted (S.state shelf.old).held asked }
    ensures write { result ≡ WriteFault
        → RoseOrStands (S.state shelf.old).save_count (S.state shelf.new).save_count
        ⊎ RoseOrStands (K.state sink.old).fault_count (K.state sink.new).fault_count }
    ensures write_only { result ≢ WriteFault
        → ((S.state shelf.new).save_count ≡ (S.state shelf.old).save_count)
        × ((K.state sink.new).fault_count ≡ (K.state sink.old).fault_count) }
    ensures complete { (asked : JobGiven) → AreServed (λ p. named p) passes.now (map string_bytes words.now) asked
        → (S.state shelf.old).tells ≡ true → AreWithin (S.state shelf.old).held asked
        → AreAccepted (S.state shelf.old).held asked
        → ¬ RoseOrStands (S.state shelf.old).load_count (S.state shelf.new).load_count
        → ¬ RoseOrStands (S.state shelf.old).save_count (S.state shelf.new).save_count
        → ¬ RoseOrStands (K.state sink.old).fault_count (K.state sink.new).fault_count
        → (result ≡ Done) ⊎ (result ≡ NoMemory) }

    // What stays: before anything was saved or put out nothing changes, nor where the words ask for no job, and only the
    // image's name of a `debug` or a `compile` ever does.
    ensures kept { IsEarly result ⊎ AreNotServed (λ p. named p) passes.now (map string_bytes words.now)
        → (S.state shelf.old).tells ≡ true → (n : List ℕ) → (S.state shelf.new).held n ≡ (S.state shelf.old).held n }
    ensures nothing { IsEarly result ⊎ AreNotServed (λ p. named p) passes.now (map string_bytes words.now)
        → (K.state sink.old).tells ≡ true → (K.state sink.new).taken ≡ (K.state sink.old).taken }
    ensures others { (asked : JobGiven) → AreServed (λ p. named p) passes.now (map string_bytes words.now) asked
        → (S.state shelf.old).tells ≡ true → (n : List ℕ) → ¬ SavesTo asked n
        → (S.state shelf.new).held n ≡ (S.state shelf.old).held n }

    // A `debug` or a `compile` that is done, or that failed at a line and not at the save, leaves under the name of the
    // image one that is truthful to the source: it comes of the source after just the passes that the words name, each in
    // its turn by one step. One that is cut off leaves what stood there, or the first part of such an image.
    ensures saved { (asked : JobGiven) → AreServed (λ p. named p) passes.now (map string_bytes words.now) asked
        → (result ≡ Done) ⊎ ((result ≡ WriteFault)
        × ¬ RoseOrStands (S.state shelf.old).save_count (S.state shelf.new).save_count)
        → (S.state shelf.old).tells ≡ true
        → HasSaved (λ p. named p) (λ p. (steps p).leads) passes.now
        (S.state shelf.old).held (S.state shelf.new).held asked }
    ensures left { (asked : JobGiven) → AreServed (λ p. named p) passes.now (map string_bytes words.now) asked
        → IsCut result → (S.state shelf.old).tells ≡ true
        → HasLeft (λ p. named p) (λ p. (steps p).leads) passes.now
        (S.state shelf.old).held (S.state shelf.new).held asked }

    // A session that is done has put out all that its job prints: the transcript of the image, which is the one that a
    // `debug` saved; the lines of all changes that the passes of a `passes` make, each in its turn by one step; the summary
    // of an image of the generated source after the default passes. One that is cut off has put out the first part of that.
    ensures part { (asked : JobGiven) → AreServed (λ p. named p) passes.now (map string_bytes words.now) asked
        → IsCut result → (S.state shelf.old).tells ≡ true → (K.state sink.old).tells ≡ true
        → TookPart (λ p. named p) (λ p. (steps p).leads) passes.now (S.state shelf.old).held (S.state shelf.new).held
        asked (K.state sink.old).taken (K.state sink.new).taken }
    ensures done { (asked : JobGiven) → AreServed (λ p. named p) passes.now (map string_bytes words.now) asked
        → result ≡ Done → (S.state shelf.old).tells ≡ true → (K.state sink.old).tells ≡ true
        → IsDone (λ p. named p) (λ p. (steps p).leads) passes.now (S.state shelf.old).held (S.state shelf.new).held
        asked (K.state sink.old).taken (K.state sink.new).taken }
{
    match asked(alloc, words, passes) {
        Ok(job) => serve(alloc, &job, passes, shelf, sink),
        Err(status) => status,
    }
}
