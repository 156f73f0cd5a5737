//! The numbers of places by their positions.

ghost use Rattle.std.specs.Prelude.{◌≡◌, ℕ, ◌+◌, ◌<◌, ◌^◌, IfOk, length, map};
ghost use Rattle.std.specs.List.Sorted.{IsNonDecreasing};
ghost use Rattle.c_places.specs.Places.{place_number_at, place_view};
ghost use Rattle.c_flow.specs.Tables.{place_number};

use c_places::Place;
use std::alloc::{AllocError, Global};

/// The positions of places, in order.
pub fn positions_of(alloc: Global, places: &[Place]) -> Result<Vec<u32>, AllocError>
    ensures sorted { IfOk result (λ v. IsNonDecreasing v.items) }
    ensures count { IfOk result (λ v. length v.items ≡ length places.now) }
    ensures numbers { IfOk result (λ v. (at : ℕ) → place_number v.items at ≡ place_number_at (map place_view places.now) at) }
{
    let mut positions = Vec::new(alloc);
    for place in places {
        positions.push(place.spot.at)?;
    }
    positions.sort_unstable();
    Ok(positions)
}

/// The number of the place at a position, among places at these positions.
pub fn number_in(positions: &[u32], at: u32) -> u32
    requires sorted { IsNonDecreasing positions.now }
    requires few { length positions.now + 1 < 2 ^ 32 }
    ensures { result ≡ place_number positions.now at }
{
    let count = positions.partition_point(|position| *position < at);
    count as u32 + 1
}
