//! Laws of the definitions.

ghost use Rattle.debug_records.specs.declared.change.PassName.{PassName};
ghost use Rattle.graph_core.specs.Graphs.{UnitForm};
ghost use Rattle.graph_core.specs.WellMarked.{AreWellMarked};
ghost use Rattle.pass_law.specs.Keeps.{Keeps};
ghost use Rattle.pass_law.specs.Worked.{AreNotWorked, AreWorked, NoPassLogs};
ghost use Rattle.pass_law.specs.WorkedChanges.{AreBorneOut, AreNotBorneOut};

/// Two laws: a well marked unit keeps what it does itself, and what keeps a unit that keeps a first one keeps the
/// first.
pub fn keeping_composes()
    ensures itself { (u : UnitForm) → AreWellMarked u → Keeps u u }
    ensures through { (u v w : UnitForm) → Keeps u v → Keeps v w → Keeps u w }
{}

/// A law: what logs a change of a place that no marker begins, of a variable that is no scalar, or by another name,
/// or too many changes, is no pass of a name, whatever else it does.
pub fn logs_are_bounded()
    ensures { (pass : PassName) → NoPassLogs pass }
{}

/// The definitions can be met: the unit of a small program and what a pass of any name makes of it are well marked, the
/// one is kept by the other, and the pass's change is one that it may log, and earned. And they refuse what they
/// should:
/// a removal that is not logged, a note of a scalar that is not written, and another value that is returned.
pub fn definitions_are_met()
    ensures met { (pass : PassName) → AreWorked pass }
    ensures refused { (pass : PassName) → AreNotWorked pass }
{}

/// The definitions of changes can be met: graphs of small functions bear out what was removed, moved, replaced and
/// reused. And they refuse what they should: a removed assignment whose variable is read, a sum that is another or was
/// moved to where a way does not come to it, a read of what was not copied, a register that no other name has, and one
/// that is shared as the log says already.
pub fn changes_are_borne_out()
    ensures met { AreBorneOut }
    ensures refused { AreNotBorneOut }
{}
