//! Laws of the definitions.

ghost use Rattle.c_meaning.specs.Worked.{AreWorked};

/// A law: the definitions give these runs of small programs.
pub fn runs_are_worked()
    ensures { AreWorked }
{}
