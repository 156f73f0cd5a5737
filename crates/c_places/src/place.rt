//! The places of a program (ISO/IEC 9899:2011, 5.1.2.3, 6.2.1).

ghost use Rattle.std.specs.Prelude.{◌≡◌, IfOk, map, string_bytes};
ghost use Rattle.c_tree.specs.Programs.{automatic_view};
ghost use Rattle.c_places.specs.Places.{place_view};
ghost use Rattle.c_places.specs.Places.{count_before, is_hidden, is_same_name, name_of, place_number_at, scope_at, visible};

use c_tree::AutomaticVariable;
use debug_records::Spot;
use std::alloc::{AllocError, Global};

/// A place: a point at which the execution of a program may be stopped, or the entry of a function.
#[derive(Drop)]
pub struct Place {
    pub spot: Spot,
    /// The number of its function.
    pub function: usize,
    /// An entry is no stop.
    pub is_entry: bool,
    /// The automatic variables in scope there, by position.
    pub scope: Vec<usize>,
}

/// The number of the place at a position.
pub fn number_at(places: &[Place], at: u32) -> usize
    ensures { result ≡ place_number_at (map place_view places.now) at }
{
    let mut count = 0usize;
    for place in places {
        if place.spot.at < at {
            count += 1;
        }
    }
    count + 1
}

/// The variables in scope at the place at a position.
pub fn scope_at(places: &[Place], at: u32) -> &[usize]
    ensures { result.now ≡ scope_at (map place_view places.now) at }
{
    for place in places {
        if place.spot.at == at {
            return place.scope.as_slice();
        }
    }
    &[]
}

/// The name of an automatic variable; nothing where there is none of that number.
fn name_of(automatics: &[AutomaticVariable], variable: usize) -> &[u8]
    ensures { result.now ≡ name_of (map automatic_view automatics.now) variable }
{
    match automatics.get(variable) {
        None => &[],
        Some(found) => found.name.as_bytes(),
    }
}

/// Whether two names are one.
#[tactic(auto, using(crate::proofs::Names::lengths_differ))]
fn is_same_name(one: &[u8], other: &[u8]) -> bool
    ensures { result ≡ is_same_name one.now other.now }
{
    if one.len() != other.len() {
        return false;
    }
    for i in 0..one.len() {
        if one[i] != other[i] {
            return false;
        }
    }
    true
}

/// Whether a variable is hidden by one of others.
fn is_hidden(automatics: &[AutomaticVariable], variable: usize, later: &[usize]) -> bool
    ensures { result ≡ is_hidden (map automatic_view automatics.now) variable later.now }
{
    for other in later {
        if is_same_name(name_of(automatics, variable), name_of(automatics, *other)) {
            return true;
        }
    }
    false
}

/// The variables of a scope that are not hidden.
pub fn visible(
    alloc: Global,
    automatics: &[AutomaticVariable],
    scope: &[usize],
) -> Result<Vec<usize>, AllocError>
    ensures { IfOk result (λ v. v.items ≡ visible (map automatic_view automatics.now) scope.now) }
{
    let mut found = Vec::new(alloc);
    for i in 0..scope.len() {
        if !is_hidden(automatics, scope[i], &scope[i + 1..]) {
            found.push(scope[i])?;
        }
    }
    Ok(found)
}
