//! A search for a route, breadth first from its start.

ghost use Rattle.std.specs.Prelude.{◌≡◌, ◌<◌, ◌≤◌, ◌*◌, ◌+◌, ◌++◌, ◌∷◌, [], ◌==◌, ◌&&◌, ◌||◌, ℕ, List, Bool, if◌then◌else◌, true, false, All, OnOk, IfOk, length, slice_get, slice_set, slice_index_or, Some, map};
ghost use Rattle.places.specs.Flow.{AreInOrder, assigns};
ghost use Rattle.places.specs.Path.{places};
ghost use Rattle.places.specs.Search.{AreBlocked, Expanded, IsFirstFrom, IsWayTo, Searched, blocked_by, passes, quest_of, state_number};

use crate::flow::{Assignment, FlowStep, FlowTable};
use crate::paths::Path;
use debug_records::{Place, Var};
use smallvec::SmallVec;
use std::alloc::{AllocError, Global};

/// A place that the search came to.
#[derive(Clone, Copy)]
pub struct Visit {
    pub place: Place,
    /// Whether the place to go by is this one or was passed on the way.
    pub passed: bool,
    /// The visit from which the search came here; of the first visit its own number.
    pub parent: usize,
}

/// Where no route may pass between its ends.
#[derive(Clone, Copy)]
pub enum Blocked<'a> {
    /// The places that assign a variable.
    Assigning(&'a FlowTable, Var),
    /// The places whose flags are set; those behind the last flag are free.
    Flagged(&'a [bool]),
}

/// A route that is asked for.
#[derive(Clone, Copy)]
pub struct Request<'a> {
    pub steps: &'a [FlowStep],
    pub blocked: Blocked<'a>,
    pub start: Place,
    pub via: Place,
    pub stop: Place,
}

/// The number of a place as the search comes to it: there are two for each place.
pub fn state_number(place: Place, passed: bool) -> usize
    ensures { result ≡ state_number place.0 passed }
{
    2 * place.0 as usize + usize::from(passed)
}

/// A number above each place that a step leads to.
pub fn place_bound(steps: &[FlowStep]) -> usize
    ensures above { All (λ s. s.to.0 < result) steps.now }
    ensures small { result ≤ 4294967296 }
{
    let mut bound = 0;
    for step in steps {
        let above = step.to.0 as usize + 1;
        if above > bound {
            bound = above;
        }
    }
    bound
}

/// For each number of a place as the search comes to it, whether the place assigns the variable.
fn assigning_places(
    alloc: Global,
    assignments: &[Assignment],
    var: Var,
    bound: usize,
) -> Result<Vec<bool>, AllocError>
    requires { bound ≤ 4294967296 }
    ensures size { IfOk result (λ blocked. length blocked.items ≡ 2 * bound) }
    ensures flags { IfOk result (λ blocked. AreBlocked (λ p. assigns assignments.now p var.0) blocked.items) }
{
    let mut blocked = vec![in alloc; false; 2 * bound]?;
    for assignment in assignments {
        let place = assignment.place.0 as usize;
        if assignment.var.0 == var.0 && place < bound {
            blocked[2 * place] = true;
            blocked[2 * place + 1] = true;
        }
    }
    Ok(blocked)
}

/// For each number of a place as the search comes to it, the flag of the place.
fn flagged_places(alloc: Global, flags: &[bool], bound: usize) -> Result<Vec<bool>, AllocError>
    requires { bound ≤ 4294967296 }
    ensures size { IfOk result (λ blocked. length blocked.items ≡ 2 * bound) }
    ensures flags { IfOk result (λ blocked. AreBlocked (λ p. slice_index_or flags.now p false) blocked.items) }
{
    let mut blocked = vec![in alloc; false; 2 * bound]?;
    for place in 0..flags.len().min(bound) {
        blocked[2 * place] = flags[place];
        blocked[2 * place + 1] = flags[place];
    }
    Ok(blocked)
}

/// For each number of a place as the search comes to it, whether the place is blocked.
pub fn blocked_places(
    alloc: Global,
    blocked: Blocked<'_>,
    bound: usize,
) -> Result<Vec<bool>, AllocError>
    requires { bound ≤ 4294967296 }
    ensures size { IfOk result (λ flags. length flags.items ≡ 2 * bound) }
    ensures flags { IfOk result (λ flags. AreBlocked (blocked_by blocked.entry) flags.items) }
{
    match blocked {
        Blocked::Assigning(table, var) => assigning_places(alloc, &table.assignments, var, bound),
        Blocked::Flagged(flags) => flagged_places(alloc, flags, bound),
    }
}

/// The index of the first step from a place or from a greater one.
pub fn first_from(steps: &[FlowStep], place: Place) -> usize
    requires { AreInOrder steps.now }
    ensures { IsFirstFrom steps.now place.0 result }
{
    steps.partition_point(|step| step.from.0 < place.0)
}

/// Notes a visit, unless there was one like it before.
pub fn come_to(closed: &mut [bool], visits: &mut Vec<Visit>, visit: Visit) -> Result<(), AllocError>
    requires { state_number visit.place.0 visit.passed < length closed.old }
    ensures visits { OnOk result
        (visits.new.items ≡ (if slice_index_or closed.old (state_number visit.place.0 visit.passed) false then
        visits.old.items else visits.old.items ++ visit ∷ [])) }
    ensures closed { OnOk result (closed.new ≡ slice_set closed.old (state_number visit.place.0 visit.passed) true) }
{
    let state = state_number(visit.place, visit.passed);
    if closed[state] {
        return Ok(());
    }
    visits.push(visit)?;
    closed[state] = true;
    Ok(())
}

/// Whether the place to go by was passed at a visit, or is the place that comes next.
fn passes_by(visit: Visit, place: Place, via: Place) -> bool
    ensures { result ≡ (visit.passed || place.0 == via.0) }
{
    visit.passed || place.0 == via.0
}

/// Whether the place to go by was passed at a visit, and the place that comes next is the stop.
fn is_answer(visit: Visit, place: Place, stop: Place) -> bool
    ensures { result ≡ (visit.passed && place.0 == stop.0) }
{
    visit.passed && place.0 == stop.0
}

/// Takes each step from a visit, and tells whether one is an answer.
pub fn expand(
    request: &Request<'_>,
    head: usize,
    closed: &mut [bool],
    visits: &mut Vec<Visit>,
) -> Result<bool, AllocError>
    requires head { head < length visits.old.items }
    requires order { AreInOrder request.now.steps.now }
    requires searched { Searched (quest_of request.now) head 0 visits.old.items closed.old }
    ensures { IfOk result (λ found. Expanded (quest_of request.now) head found visits.new.items closed.new) }
{
    let visit = visits[head];
    let steps = request.steps;
    for index in first_from(steps, visit.place)..steps.len() {
        let step = steps[index];
        if step.from.0 != visit.place.0 {
            return Ok(false);
        }
        if is_answer(visit, step.to, request.stop) {
            return Ok(true);
        }
        let passed = passes_by(visit, step.to, request.via);
        let next = Visit {
            place: step.to,
            passed,
            parent: head,
        };
        come_to(closed, visits, next)?;
    }
    Ok(false)
}

/// The way to a visit, and the stop behind it.
pub fn trace(alloc: Global, visits: &[Visit], head: usize, stop: Place) -> Result<Path, AllocError>
    requires { (way : List ℕ) × IsWayTo visits.now head way }
    ensures way { IfOk result (λ path. (way : List ℕ) → IsWayTo visits.now head way
        → places path ≡ way ++ stop.0 ∷ []) }
    ensures short { IfOk result (λ path. length path.places.items < 18446744073709551616) }
{
    let mut back = vec![in alloc; stop]?;
    let mut at = head;
    while at != 0 {
        let visit = visits[at];
        back.push(visit.place)?;
        at = visit.parent;
    }
    let first = visits[at];
    back.push(first.place)?;
    back.reverse();
    Ok(Path {
        places: SmallVec::from_slice(alloc, &back)?,
    })
}
