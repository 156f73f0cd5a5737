//! Laws of the definitions.

ghost use Rattle.word_base.specs.Worked.{AreWorked};

/// A law: the operations of C give these worked values at the ends of their types.
pub fn operations_are_worked()
    ensures { AreWorked }
{}
