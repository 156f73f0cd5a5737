//! The scalars that their homes do not show.

ghost use Rattle.std.specs.Prelude.{◌≡◌, ◌+◌, ◌<◌, ◌^◌, ℕ, IfOk, List, [], false, length, map, min};
ghost use Rattle.graph_core.specs.Graphs.{Logged, Scalar as ScalarForm, graph_view};
ghost use Rattle.graph_core.specs.Validity.{AreAllDifferent, markers_of_blocks};
ghost use Rattle.currency_notes.specs.Homes.{home_in};
ghost use Rattle.currency_shown.specs.Survey.{IsSurvey, IsWalked};
ghost use Rattle.currency_shown.specs.Found.{ArePlacesOf, entries_of, is_met};
ghost use Rattle.currency_shown.specs.Chains.{AreFull, IsFullAtStart};
ghost use Rattle.dead_pass_writes.specs.RemovedChangesTelling.{AreToldOf};
ghost use Rattle.currency_shown.specs.Shown.{AreDifferent, AreDistinct, AreHidden, AreLeast, AreOther, AreOwn, ArePlaced, AreReached, AreRecipes, AreTheirs, AreVisible};

use crate::chains::chains_of;
use crate::found::{Found, Unshown};
use crate::numbering::Numbering;
use crate::states::States;
use crate::survey::Survey;
use currency_notes::{Function, Homes, State};
use dead_pass_writes::RemovedChanges;
use debug_records::Change;
use graph_core::Graph;
use graph_homes::Home;
use places::PlaceTable;
use std::alloc::{AllocError, Global};

/// Nothing is found yet of so many scalars and places.
fn nothing<'a>(alloc: Global, scalars: usize, places: usize) -> Result<Found<'a>, AllocError>
    ensures none { IfOk result (λ found. (x : ℕ) → entries_of found.unshown.items x ≡ []) }
    ensures unmet { IfOk result (λ found. (p : ℕ) → is_met found p ≡ false) }
    ensures scalars { IfOk result (λ found. length found.unshown.items ≡ scalars) }
    ensures places { IfOk result (λ found. length found.met.items ≡ min (places + 1) 18446744073709551615) }
{
    let mut unshown = Vec::new(alloc);
    while unshown.len() < scalars {
        unshown.push(Vec::new(alloc))?;
    }
    Ok(Found {
        met: vec![in alloc; false; places.saturating_add(1)]?,
        unshown,
    })
}

/// What is found of a function in a walk over all its chains, once no walk leaves less where one begins.
fn found_of<'a>(
    alloc: Global,
    survey: &Survey<'a, '_>,
    entered: &State<'a>,
    states: &mut States<'a>,
) -> Result<Found<'a>, AllocError>
    requires survey { IsSurvey survey.now }
    requires full { AreFull survey.now.function.now states.old }
    requires entered { IsFullAtStart survey.now.function.now entered.now 0 }
    ensures { IfOk result (λ found. AreFull survey.now.function.now states.new
        × IsWalked survey.now states.new found entered.now) }
{
    let scalars = survey.function.graph.scalars.len();
    let places = survey.table.rows.len();
    let mut found = nothing(alloc, scalars, places)?;
    let mut is_new = survey.walk(alloc, entered, states, &mut found)?;
    while is_new {
        found = nothing(alloc, scalars, places)?;
        is_new = survey.walk(alloc, entered, states, &mut found)?;
    }
    Ok(found)
}

/// For each scalar of a function the places that some path reaches, where it is visible, and its home does not show its
/// value: where not on all paths the last note of it says that its value is its own, its home is not written behind the
/// note on any, and was last written for it. A home that was never written holds no name's value; parameters are
/// written as the function is called. With each what is last noted of it, if that shows its value; where numbers tell
/// homes apart, none where no recipe does.
///
/// The homes are those of the function's names, the changes those of its unit, with those that removed assignments, and
/// the places those of its program, in which the function has this number. The only error is want of memory.
pub fn not_shown<'a>(
    alloc: Global,
    number: u32,
    graph: &'a Graph,
    homes: &'a [Home],
    changes: &[Change],
    removed: &'a RemovedChanges,
    places: &PlaceTable,
) -> Result<Vec<Vec<Unshown<'a>>>, AllocError>
    requires scalars { length (graph_view graph.now).scalars < 2 ^ 32 }
    requires variables { AreAllDifferent (map (λ (s : ScalarForm). s.variable) (graph_view graph.now).scalars) }
    requires once { AreAllDifferent (markers_of_blocks (graph_view graph.now).blocks) }
    requires places { ArePlacesOf places.now number (graph_view graph.now) }
    ensures count { IfOk result (λ found. length found.items ≡ length (graph_view graph.now).scalars) }
    ensures placed { IfOk result (λ found. ArePlaced (graph_view graph.now) number places.now) }
    ensures theirs { IfOk result (λ found. AreTheirs found.items number places.now) }
    ensures reached { IfOk result (λ found. AreReached (graph_view graph.now) found.items) }
    ensures visible { IfOk result (λ found. AreVisible (graph_view graph.now) places.now found.items) }
    ensures different { IfOk result (λ found. AreDifferent (graph_view graph.now)) }
    ensures own { IfOk result (λ found. AreOwn (home_in homes.now) (graph_view graph.now) places.now found.items) }
    ensures recipe { IfOk result (λ found. AreRecipes (home_in homes.now) (graph_view graph.now) found.items) }
    ensures other { IfOk result (λ found. AreOther (graph_view graph.now) found.items) }
    ensures hidden { IfOk result (λ found. AreDistinct homes.now
        → AreHidden (home_in homes.now) (graph_view graph.now) found.items) }
    ensures least { IfOk result (λ found. (log : List Logged) → AreToldOf log removed.now
        → AreLeast log (graph_view graph.now) found.items) }
{
    let numbering = Numbering::new(alloc, &graph.scalars)?;
    let function = Function {
        graph,
        homes: Homes::new(alloc, graph, homes)?,
        removed,
    };
    let chains = chains_of(alloc, &graph.blocks)?;
    let entered = State::entered(alloc, &function)?;
    let mut states = States::new(alloc, &function, &chains, changes.len())?;
    let survey = Survey {
        function: &function,
        number,
        table: places,
        numbering,
        chains: &chains,
    };
    let found = found_of(alloc, &survey, &entered, &mut states)?;
    Ok(found.unshown)
}
