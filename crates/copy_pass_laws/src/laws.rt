//! Laws of copy propagation.

ghost use Rattle.std.specs.Prelude.{◌≡◌, ◌++◌, List};
ghost use Rattle.c_tree.specs.Programs.{ProgramTree};
ghost use Rattle.copy_pass_rule.specs.Copying.{IsPropagated};
ghost use Rattle.copy_pass_laws.specs.SameRuns.{RunTheSame};
ghost use Rattle.graph_core.specs.Graphs.{Logged, UnitForm};
ghost use Rattle.graph_core.specs.Validity.{IsValid};
ghost use Rattle.graph_core.specs.WellMarked.{AreWellMarked};
ghost use Rattle.pass_law.specs.Kept.{EachFunction, ShareTheSame};
ghost use Rattle.graph_build_runs.specs.Correspondence.{DoesProgram};
ghost use Rattle.pass_law.specs.Keeps.{Keeps};

/// Laws of a unit and of what copy propagation makes of it, where functions share the same and the log only grew: on
/// each input the same is seen of both in each
/// number of steps; the one is valid if the other is; and if the one is well marked, so is the other, and keeps what it
/// does.
pub fn copies_keep()
    ensures runs { (u v : UnitForm) → ShareTheSame u v → EachFunction IsPropagated u.graphs v.graphs → RunTheSame u v }
    ensures valid { (u v : UnitForm) (added : List Logged) → ShareTheSame u v → v.log ≡ u.log ++ added
        → EachFunction IsPropagated u.graphs v.graphs → IsValid u → IsValid v }
    ensures keeps { (u v : UnitForm) (added : List Logged) → ShareTheSame u v → v.log ≡ u.log ++ added
        → EachFunction IsPropagated u.graphs v.graphs → AreWellMarked u → Keeps u v }
{}

/// A law: where a unit does what a program does, so does what copy propagation makes of it.
pub fn copies_do_programs()
    ensures { (p : ProgramTree) (u v : UnitForm) → ShareTheSame u v → EachFunction IsPropagated u.graphs v.graphs
        → DoesProgram p u → DoesProgram p v }
{}
