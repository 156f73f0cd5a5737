//! Laws of the definitions.

ghost use Rattle.c_flow.specs.Worked.{AreWorked};

/// A law: the definitions give these steps and assignments of small programs.
pub fn flows_are_worked()
    ensures { AreWorked }
{}
