//! Laws of the markers of units.

ghost use Rattle.c_tree.specs.Programs.{ProgramTree};
ghost use Rattle.c_type_laws.specs.Laws.{IsWellFormed};
ghost use Rattle.graph_core.specs.Graphs.{UnitForm};
ghost use Rattle.graph_build.specs.Units.{IsUnitOf};
ghost use Rattle.graph_build_laws.specs.Following.{FollowFlow, HasSteps};
ghost use Rattle.graph_build_laws.specs.GraphMarkingWorked.{ComputesBetween};

/// A law: each graph of a well-formed program's unit, which has the program's steps, begins with the marker of its
/// entry, to which no edge leads back, its markers follow the flow, and each cycle has one.
pub fn markers_follow_flow()
    ensures { (p : ProgramTree) (u : UnitForm) → IsWellFormed p → IsUnitOf p u → HasSteps p u → FollowFlow u }
{}

/// A law: between a write of a scalar and its note a temporary may be computed.
pub fn notes_may_wait()
    ensures { ComputesBetween }
{}
