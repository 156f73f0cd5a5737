//! The verdicts of an image.

ghost use Rattle.std.specs.Prelude.{◌≡◌, ◌<◌, IfOk, length, map, true};
ghost use Rattle.graph_core.specs.WellMarked.{AreWellMarked};
ghost use Rattle.graph_homes.specs.Homed.{HaveHomes, homed_view};
ghost use Rattle.currency.specs.Premises.{AreSharesLogged, IsFlowOf, IsTableOf};
ghost use Rattle.currency.specs.Visible.{sight, sights_from};
ghost use Rattle.image_build_tables.specs.Rows.{AreShown};
ghost use Rattle.image_build.specs.Made.{AreBorneOut};
ghost use Rattle.image_build.specs.ProgramImageShown.{AreShownAt};

use crate::slot_verdicts;
use currency::{PlaceVerdict, verdicts};
use graph_homes::HomedUnit;
use places::PlaceTable;
use std::alloc::{AllocError, Global};

/// The verdicts on the variables that are visible at places, borne out by a unit with homes. Where the home of each
/// shows it, as where nothing was changed and each name has a slot of its own, they say just that.
pub fn verdicts_on(
    alloc: Global,
    homed: &HomedUnit,
    places: &PlaceTable,
    is_plain: bool,
) -> Result<Vec<PlaceVerdict>, AllocError>
    requires plain { is_plain ≡ true → AreShownAt places.now (homed_view homed.now) }
    requires marked { AreWellMarked (homed_view homed.now).unit }
    requires homes { HaveHomes (homed_view homed.now) }
    requires shared { AreSharesLogged (homed_view homed.now) }
    requires flow { IsFlowOf (homed_view homed.now).unit homed.now.unit.flow }
    requires table { IsTableOf (homed_view homed.now).unit places.now }
    requires few { length (homed_view homed.now).unit.log < 4294967295 }
    ensures visible { IfOk result (λ v. map sight v.items ≡ sights_from 1 places.now.rows.items) }
    ensures borne_out { IfOk result (λ v. AreBorneOut (homed_view homed.now) v.items) }
    ensures shown { is_plain ≡ true → IfOk result (λ v. AreShown v.items) }
{
    if is_plain {
        let shown = slot_verdicts(alloc, places)?;
        return Ok(shown);
    }
    let told = verdicts(alloc, homed, places, &homed.unit.flow)?;
    Ok(told)
}
