//! Laws of the counts of units.

ghost use Rattle.c_tree.specs.Programs.{ProgramTree};
ghost use Rattle.c_type_laws.specs.Laws.{IsWellFormed};
ghost use Rattle.graph_core.specs.Graphs.{UnitForm};
ghost use Rattle.graph_build_laws.specs.Keeping.{KeepBounds, KeepWeights};
ghost use Rattle.graph_build.specs.Units.{IsUnitOf};
ghost use Rattle.graph_build_laws.specs.Worked.{IsConverting};

/// A law: each graph of a well-formed program's unit keeps the weight of its function.
pub fn graphs_keep_weights()
    ensures { (p : ProgramTree) (u : UnitForm) → IsWellFormed p → IsUnitOf p u → KeepWeights p u }
{}

/// A law: the counts of such a unit are within the bounds of valid units.
pub fn graphs_keep_bounds()
    ensures { (p : ProgramTree) (u : UnitForm) → IsWellFormed p → IsUnitOf p u → KeepBounds u }
{}

/// A law: nodes alone are too few to weigh by, since conversions are none; so the laws of programs count those that
/// were written.
pub fn nodes_are_too_few()
    ensures { IsConverting }
{}
