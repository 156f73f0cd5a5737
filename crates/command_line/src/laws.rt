//! Laws of the words.

ghost use Rattle.command_line.specs.Grammar.{AreOneJobAtMost};

/// A law: no words are two jobs.
pub fn words_are_one_job_at_most()
    ensures { AreOneJobAtMost }
{}
