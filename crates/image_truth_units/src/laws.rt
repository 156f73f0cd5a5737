//! Laws of the units of programs.

ghost use Rattle.c_tree.specs.Programs.{ProgramTree};
ghost use Rattle.c_type_laws.specs.Laws.{IsWellFormed};
ghost use Rattle.graph_core.specs.Graphs.{UnitForm};
ghost use Rattle.graph_core.specs.WellMarked.{AreWellMarked};
ghost use Rattle.graph_build_laws.specs.Built.{IsBuilt};

/// A law: the unit that is built of a well-formed program is well marked: its markers follow the flow of the program,
/// and its notes say what becomes of each scalar.
pub fn built_units_are_marked()
    ensures { (p : ProgramTree) (u : UnitForm) → IsWellFormed p → IsBuilt p u → AreWellMarked u }
{}
