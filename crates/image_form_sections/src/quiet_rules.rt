//! Where quiet paths of variables may begin.

ghost use Rattle.std.specs.Prelude.{◌≡◌, IfOk};
ghost use Rattle.image_form_sections.specs.Layouts.{HoldsQuietPlaces, HoldsTakenPlaces, sections_in};
ghost use Rattle.image_form_sections.specs.TestsOfChanges.{pair_key};

use crate::change_rules::is_taking;
use crate::layout::Layout;
use std::alloc::{AllocError, Global};

/// A place and a variable as one number.
#[tactic(auto, unfolding(crate::specs::TestsOfChanges::pair_key))]
pub fn pair_key(place: u32, variable: u32) -> u64
    ensures { result ≡ pair_key place variable }
{
    place as u64 * 0x1_0000_0000 + variable as u64
}

/// The places and variables of the changes by which assignments went, in order.
fn taken_places(alloc: Global, layout: &Layout<'_>) -> Result<Vec<u64>, AllocError>
    ensures { IfOk result (λ keys. HoldsTakenPlaces keys.items (sections_in layout.now)) }
{
    let changes = &layout.changes;
    let mut keys = Vec::new(alloc);
    for row in 0..changes.len() {
        if is_taking(changes.number(row, 1)) {
            keys.push(pair_key(changes.number(row, 2), changes.number(row, 3)))?;
        }
    }
    keys.sort_unstable();
    Ok(keys)
}

/// The places with the variables that they assign, of which no change took the assignment, in order.
pub fn quiet_places(alloc: Global, layout: &Layout<'_>) -> Result<Vec<u64>, AllocError>
    ensures { IfOk result (λ keys. HoldsQuietPlaces keys.items (sections_in layout.now)) }
{
    let taken = taken_places(alloc, layout)?;
    let assigned = &layout.assigned;
    let mut keys = Vec::new(alloc);
    for row in 0..assigned.len() {
        let key = pair_key(assigned.number(row, 0), assigned.number(row, 1));
        if taken.binary_search(&key).is_err() {
            keys.push(key)?;
        }
    }
    keys.sort_unstable();
    Ok(keys)
}
