//! Laws of the definitions.

ghost use Rattle.c_source.specs.Refused.{AreRefused};

/// A law: what is not in order, no sound token or not formed is refused as such.
pub fn cases_are_refused()
    ensures { AreRefused }
{}
