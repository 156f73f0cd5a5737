//! The least route by way of a place.

ghost use Rattle.std.specs.Prelude.{◌≡◌, ℕ, List, IfOk, IfNone, IfSome, option_map};
ghost use Rattle.places.specs.Flow.{AreInOrder};
ghost use Rattle.places.specs.Path.{IsLeastRoute, IsRoute, places, quest, quest_past};
ghost use Rattle.places.specs.Route.{route_of};
ghost use Rattle.places.specs.Search.{quest_of};

use crate::flow::{FlowStep, FlowTable};
use crate::paths::Path;
use crate::search::{Blocked, Request, Visit, blocked_places, expand, place_bound, trace};
use debug_records::{Place, Var};
use std::alloc::{AllocError, Global};

/// The least of the paths that lead from the start by way of a place to the stop, if there is one.
fn least(alloc: Global, request: Request<'_>) -> Result<Option<Path>, AllocError>
    requires { AreInOrder request.steps.now }
    ensures found { IfOk result (λ answer. IfSome answer (λ path.
        IsLeastRoute (quest_of request.entry) (places path))) }
    ensures value { IfOk result (λ answer. option_map (λ path. places path) answer
        ≡ route_of (quest_of request.entry)) }
    ensures none { IfOk result (λ answer. IfNone answer ((path : List ℕ)
        → IsRoute (quest_of request.entry) path → ⊥)) }
{
    let bound = place_bound(request.steps);
    let mut closed = blocked_places(alloc, request.blocked, bound)?;
    let first = Visit {
        place: request.start,
        passed: request.start.0 == request.via.0,
        parent: 0,
    };
    let mut visits = vec![in alloc; first]?;
    let mut head = 0;
    while head < visits.len() {
        if expand(&request, head, &mut closed, &mut visits)? {
            let path = trace(alloc, &visits, head, request.stop)?;
            return Ok(Some(path));
        }
        head += 1;
    }
    Ok(None)
}

/// The least of the paths that lead from the start by way of a place to the stop: at least one step is taken behind
/// that place, and no
/// place strictly between the two ends assigns the variable. Of two paths the shorter is less, and of two of one length
/// the one that
/// is less where they differ first. None exactly where there is no such path. `AllocError` where memory was refused.
pub fn route(
    alloc: Global,
    table: &FlowTable,
    var: Var,
    start: Place,
    via: Place,
    stop: Place,
) -> Result<Option<Path>, AllocError>
    requires { AreInOrder table.now.steps.items }
    ensures found { IfOk result
        (λ answer. IfSome answer (λ path. IsLeastRoute (quest table.now var start via stop) (places path))) }
    ensures value { IfOk result
        (λ answer. option_map (λ path. places path) answer ≡ route_of (quest table.now var start via stop)) }
    ensures none { IfOk result
        (λ answer. IfNone answer ((path : List ℕ) → IsRoute (quest table.now var start via stop) path → ⊥)) }
{
    least(
        alloc,
        Request {
            steps: &table.steps,
            blocked: Blocked::Assigning(table, var),
            start,
            via,
            stop,
        },
    )
}

/// The same where no place strictly between the two ends has a flag that is set; a place behind the last flag has none.
pub fn route_past(
    alloc: Global,
    steps: &[FlowStep],
    blocked: &[bool],
    start: Place,
    via: Place,
    stop: Place,
) -> Result<Option<Path>, AllocError>
    requires { AreInOrder steps.now }
    ensures found { IfOk result (λ answer. IfSome answer (λ path.
        IsLeastRoute (quest_past steps.now blocked.now start via stop) (places path))) }
    ensures value { IfOk result (λ answer. option_map (λ path. places path) answer
        ≡ route_of (quest_past steps.now blocked.now start via stop)) }
    ensures none { IfOk result (λ answer. IfNone answer ((path : List ℕ)
        → IsRoute (quest_past steps.now blocked.now start via stop) path → ⊥)) }
{
    least(
        alloc,
        Request {
            steps,
            blocked: Blocked::Flagged(blocked),
            start,
            via,
            stop,
        },
    )
}
