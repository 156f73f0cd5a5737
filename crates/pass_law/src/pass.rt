//! What a pass is.

ghost use Rattle.std.specs.Prelude.{◌≡◌, ◌<◌, ◌^◌, IfOk, length};
ghost use Rattle.debug_records.specs.declared.change.PassName.{PassName};
ghost use Rattle.graph_core.specs.Graphs.{unit_view};
ghost use Rattle.graph_core.specs.WellMarked.{AreWellMarked};
ghost use Rattle.pass_law.specs.Kept.{KeepsShape};
ghost use Rattle.pass_law.specs.Logs.{LogsWell};
ghost use Rattle.pass_law.specs.Relations.{PassRelation};

use debug_records::PassName;
use graph_core::Unit;
use std::alloc::{AllocError, Global};

/// A pass over units. What it may make of a unit comes with the proof that each step keeps what the unit does.
pub trait Pass: Drop {
    /// Its name.
    ghost named: { Self → PassName };

    /// Its steps: what it may make of a unit.
    ghost steps: { Self → PassRelation };

    /// The name of the pass.
    fn name(&self) -> PassName
        ensures { result ≡ named self.now };

    /// What the pass makes of a well marked unit, whose log has fewer than 2^31 changes: a unit of the same shape, by a
    /// step of the pass, which logs what a pass may. `AllocError` where memory was refused.
    fn apply(&self, alloc: Global, unit: &Unit) -> Result<Unit, AllocError>
        requires marked { AreWellMarked (unit_view unit.now) }
        requires room { length (unit_view unit.now).log < 2 ^ 31 }
        ensures kept { IfOk result (λ v. KeepsShape (unit_view unit.now) (unit_view v)) }
        ensures step { IfOk result (λ v. (steps self.now).leads (unit_view unit.now) (unit_view v)) }
        ensures logs { IfOk result (λ v. LogsWell (named self.now) (unit_view unit.now) (unit_view v)) };
}
