//! Verdicts by which each variable is shown by its home.

ghost use Rattle.std.specs.Prelude.{◌≡◌, ◌++◌, IfOk, OnOk, map};
ghost use Rattle.currency.specs.Visible.{sight, sights_at, sights_from};
ghost use Rattle.image_build.specs.Shown.{AreShown};

use currency::{PlaceVerdict, Verdict};
use debug_records::{Place, Var};
use places::PlaceTable;
use std::alloc::{AllocError, Global};

/// Appends the verdicts on the variables that are visible at a place.
fn push_place(place: u32, visible: &[Var], rows: &mut Vec<PlaceVerdict>) -> Result<(), AllocError>
    ensures visible { OnOk result (map sight rows.new.items ≡ map sight rows.old.items ++ sights_at place visible.now) }
    ensures shown { OnOk result (AreShown rows.old.items → AreShown rows.new.items) }
{
    for var in visible {
        rows.push(PlaceVerdict {
            place: Place(place),
            var: *var,
            verdict: Verdict::Home,
        })?;
    }
    Ok(())
}

/// The verdicts on the variables that are visible at each place, in the order of places and then of variables: the home
/// of each shows it. So it is in a well marked unit of which no assignment was removed and whose names have slots of
/// their own (`shown_home`). The only error is want of memory.
pub fn slot_verdicts(alloc: Global, places: &PlaceTable) -> Result<Vec<PlaceVerdict>, AllocError>
    ensures visible { IfOk result (λ v. map sight v.items ≡ sights_from 1 places.now.rows.items) }
    ensures shown { IfOk result (λ v. AreShown v.items) }
{
    let mut rows = Vec::new(alloc);
    let mut place = 1u32;
    for row in &places.rows {
        push_place(place, &row.visible, &mut rows)?;
        place = place.saturating_add(1);
    }
    Ok(rows)
}
