//! Registers that scalars share.

ghost use Rattle.std.specs.Prelude.{◌≡◌, ◌<◌, ◌≤◌, ◌++◌, ◌∷◌, ◌↔◌, ℕ, [], List, IfSome, OnOk, length, map, slice_get, true};
ghost use Rattle.std.specs.List.{list_any};
ghost use Rattle.debug_records.specs.Change.{changes};
ghost use Rattle.graph_core.specs.Graphs.{graph_view, logged, scalar_view, Logged};
ghost use Rattle.graph_homes.specs.declared.home.Home.TheVariants.{Register};
ghost use Rattle.home_assign.specs.Holders.{AreHolders};
ghost use Rattle.home_assign.specs.Moves.{AreMoves};
ghost use Rattle.home_assign.specs.Pairs.{has};
ghost use Rattle.home_assign.specs.Sharing.{AreLogged, IsForeign, change_of, home_in, is_other};

use crate::copies::temporaries_of;
use crate::holders::holders_of;
use crate::moves::Moves;
use crate::pairs::Pairs;
use debug_records::{ChangeLog, Kind, PassName};
use graph_core::{Graph, Scalar};
use graph_homes::Home;
use std::alloc::{AllocError, Global};

/// Whether there is a name among these that is neither a scalar nor one of its temporaries.
fn has_other(names: &[u32], scalar: u32, own: &Pairs) -> bool
    ensures { result ≡ list_any (is_other own.now scalar) names.now }
{
    names
        .iter()
        .any(|name| *name != scalar && !own.has(scalar, *name))
}

/// The register of a name, if its home is one.
fn register_of(homes: &[Home], name: u32) -> Option<u8>
    ensures some { IfSome result (λ r. slice_get homes.now name ≡ Some (Register r)) }
    ensures none { result ≡ None → (r : ℕ) → slice_get homes.now name ≡ Some (Register r) → ⊥ }
{
    match homes.get(name as usize) {
        Some(Home::Register(register)) => Some(*register),
        Some(Home::Slot(_)) | None => None,
    }
}

/// Whether a name other than a scalar and its temporaries has the scalar's register.
fn is_shared(homes: &[Home], holders: &[Vec<u32>], scalar: u32, own: &Pairs) -> bool
    requires holders { AreHolders homes.now 32 holders.now }
    requires registers { (x r : ℕ) → slice_get homes.now x ≡ Some (Register r) → r < 32 }
    ensures { (result ≡ true) ↔ IsForeign homes.now own.now scalar }
{
    match register_of(homes, scalar) {
        Some(register) => has_other(&holders[register as usize], scalar, own),
        None => false,
    }
}

/// Logs that a scalar's register has other names too. The log has room for as many changes as a number can count.
fn log_one(pass: PassName, of: &Scalar, log: &mut ChangeLog) -> Result<(), AllocError>
    ensures { OnOk result
        (map logged (changes log.new) ≡ map logged (changes log.old) ++ change_of pass (scalar_view of.now) ∷ []) }
{
    if log.changes().len() >= 4294967295 {
        return Err(AllocError);
    }
    let _number = log.push(pass, Kind::Reused, of.place, of.var)?;
    Ok(())
}

/// Logs the scalars of a graph whose registers other names have too, behind these moves.
pub fn log_shared(
    alloc: Global,
    graph: &Graph,
    homes: &[Home],
    moves: &Moves,
    pass: PassName,
    log: &mut ChangeLog,
) -> Result<(), AllocError>
    requires few { length homes.now ≤ 3000 }
    requires each { length homes.now ≡ graph.now.name_count }
    requires scalars { length graph.now.scalars.items ≤ graph.now.name_count }
    requires registers { (x r : ℕ) → slice_get homes.now x ≡ Some (Register r) → r < 32 }
    ensures { OnOk result
        ((made : List Logged) → AreMoves made moves.now → AreLogged made (home_in homes.now) (graph_view graph.now)
        pass (graph_view graph.now).scalars (map logged (changes log.old)) (map logged (changes log.new))) }
{
    let own = temporaries_of(alloc, graph, moves)?;
    let holders = holders_of(alloc, homes)?;
    for (scalar, of) in graph.scalars.iter().enumerate() {
        if is_shared(homes, &holders, scalar as u32, &own) {
            log_one(pass, of, log)?;
        }
    }
    Ok(())
}
