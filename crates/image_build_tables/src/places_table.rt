//! The table of places.

ghost use Rattle.std.specs.Prelude.{◌≡◌, ◌+◌, ◌<◌, ◌^◌, IfOk, get_or, length, map};
ghost use Rattle.rv_emit_tables.specs.Emitted.{function_view};
ghost use Rattle.image_build_tables.specs.Places.{address, addresses_of, stop_addresses};
ghost use Rattle.image_build_tables.specs.Tables.{spot, spot_of_row};

use crate::{entry, put_entry};
use image_form::Place;
use places::PlaceRow;
use rv_emit_tables::{EmittedFunction, PlacedStop};
use std::alloc::{AllocError, Global};

/// The address of each place that is a stop, by its number; 0 for one that has none.
fn addresses(alloc: Global, stops: &[PlacedStop], count: usize) -> Result<Vec<u32>, AllocError>
    ensures { IfOk result (λ v. v.items ≡ stop_addresses stops.now count) }
{
    let mut addresses = vec![in alloc; 0u32; count]?;
    let mut left = stops;
    while let [stop, rest @ ..] = left {
        put_entry(&mut addresses, stop.place, stop.address);
        left = rest;
    }
    Ok(addresses)
}

/// The address where a function begins; 0 where there is no such function.
fn first_of(code: &[EmittedFunction], function: u32) -> u32
    ensures { result ≡ get_or (map (λ c. c.first) code.now) function 0 }
{
    match code.get(function as usize) {
        Some(found) => found.first,
        None => 0,
    }
}

/// The places with their addresses: an entry's is that of its function, another's that of its stop. They are fewer than
/// 2^32 - 1.
pub fn places_of(
    alloc: Global,
    rows: &[PlaceRow],
    stops: &[PlacedStop],
    code: &[EmittedFunction],
) -> Result<Vec<Place>, AllocError>
    requires { length rows.now + 1 < 2 ^ 32 }
    ensures spots { IfOk result (λ v. map spot v.items ≡ map spot_of_row rows.now) }
    ensures addresses { IfOk result
        (λ v. map address v.items ≡ addresses_of (map function_view code.now) stops.now rows.now) }
{
    let addresses = addresses(alloc, stops, rows.len() + 1)?;
    let mut places = Vec::new(alloc);
    let mut left = rows;
    let mut number = 1u32;
    while let [row, rest @ ..] = left {
        let address = if row.is_entry {
            first_of(code, row.function)
        } else {
            entry(&addresses, number as usize)
        };
        places.push(Place {
            position: row.position,
            line: row.line,
            function: row.function,
            address,
        })?;
        number += 1;
        left = rest;
    }
    Ok(places)
}
