//! Laws of what the passes make.

ghost use Rattle.std.specs.Prelude.{◌≡◌, ℕ, List, []};
ghost use Rattle.std.specs.List.{AllByRecursion};
ghost use Rattle.graph_core.specs.Computations.{Computation};
ghost use Rattle.graph_core.specs.Graphs.{End, Graph, UnitForm};
ghost use Rattle.graph_core.specs.Paths.{History, Path};
ghost use Rattle.graph_core.specs.WellMarked.{AreWellMarked};
ghost use Rattle.motion_pass.specs.Counts.{IsPath, times_along};
ghost use Rattle.motion_pass_laws.specs.Often.{DoesNoMore, IsOnceAhead, times};
ghost use Rattle.motion_pass_laws.specs.Optimal.{IsOptimal};
ghost use Rattle.pass_law.specs.Kept.{EachFunction};
ghost use Rattle.cdbg_passes.specs.Bounds.{AreLeftForBounds, NeverGrows};
ghost use Rattle.cdbg_passes.specs.Counting.{NamesPath, blocks_on};
ghost use Rattle.cdbg_passes.specs.Earned.{AreEarned};
ghost use Rattle.cdbg_passes.specs.NothingLeft.{AreOptimal, ComputeNothingAgain, HasNoCopies, HasNoDead};
ghost use Rattle.cdbg_passes.specs.Steps.{MovesCode, PropagatesCopies, RemovesDead};
ghost use Rattle.cdbg_passes.specs.Worked.{AreRefused};

/// A law: each change that a step of copy propagation logs is earned, whatever the homes; so is each that lazy code
/// motion or the removal of dead assignments logs of a well marked unit.
pub fn changes_are_earned()
    ensures copy { (u v : UnitForm) → PropagatesCopies u v → AreEarned u v }
    ensures motion { (u v : UnitForm) → AreWellMarked u → MovesCode u v → AreEarned u v }
    ensures dead { (u v : UnitForm) → AreWellMarked u → RemovesDead u v → AreEarned u v }
{}

/// A law: no pass is idle. Copy propagation leaves no read that a copy reaches on every path, and the removal of dead
/// assignments no write that may go and that nothing reads. Code motion leaves a function as it was for a bound alone,
/// and else nothing is computed where its value is had on every path. On no path from the entry to an end is anything
/// computed more often than before, and on one that is cut short at most once more.
pub fn no_pass_is_idle()
    ensures copy { (u v : UnitForm) → PropagatesCopies u v → AllByRecursion HasNoCopies v.graphs }
    ensures dead { (u v : UnitForm) → RemovesDead u v → AllByRecursion (HasNoDead v) v.graphs }
    ensures left { (u v : UnitForm) → AreWellMarked u → MovesCode u v
        → AreLeftForBounds u.room u.graphs v.graphs }
    ensures again { (u v : UnitForm) → AreWellMarked u → MovesCode u v
        → ComputeNothingAgain u.room u.graphs v.graphs }
    ensures more { (u v : UnitForm) → AreWellMarked u → MovesCode u v → EachFunction DoesNoMore u.graphs v.graphs }
    ensures ahead { (u v : UnitForm) → AreWellMarked u → MovesCode u v → EachFunction IsOnceAhead u.graphs v.graphs }
{}

/// A law: code motion is computationally optimal. On no path from the entry to an end does the function that it made
/// do a computation more often than any safe placement of this in the function before, but where it left the function
/// as it was for a bound. What is optimal does nothing more often than before: one safe placement is to leave each
/// computation where it stands.
pub fn motion_is_optimal()
    ensures optimal { (u v : UnitForm) → AreWellMarked u → MovesCode u v → AreOptimal u.room u.graphs v.graphs }
    ensures more { (g h : Graph) → IsOptimal g h → DoesNoMore g h }
{}

/// A law: along a list of blocks `counts` counts what is said of paths. The blocks on each path to the end of a block
/// are a path from the entry, each list that is one names such a path, and along it the blocks do a computation as
/// often as it was done on the path.
pub fn counts_tell_times()
    ensures path { (g : Graph) (history : History) (n : ℕ) (f : End) (way : Path g history n [] f)
        → IsPath g.blocks (blocks_on way) }
    ensures named { (g : Graph) (blocks : List ℕ) → IsPath g.blocks blocks → NamesPath g blocks }
    ensures times { (g : Graph) (e : Computation) (history : History) (n : ℕ) (f : End) (way : Path g history n [] f)
        → times_along g.blocks e (blocks_on way) ≡ times e history }
{}

/// A law: no function grows by copy propagation or by the removal of dead assignments.
pub fn functions_never_grow()
    ensures copy { (u v : UnitForm) → PropagatesCopies u v → EachFunction NeverGrows u.graphs v.graphs }
    ensures dead { (u v : UnitForm) → RemovesDead u v → EachFunction NeverGrows u.graphs v.graphs }
{}

/// A law: the definitions of what is left refuse a graph with a copy that reaches a read, one with a dead write, one
/// that computes again what is had, one that computes more often than the one before, and one that computes more often
/// than a safe placement.
pub fn what_is_left_is_refused()
    ensures { AreRefused }
{}
