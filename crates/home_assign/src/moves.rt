//! Which computations were moved away.

ghost use Rattle.std.specs.Prelude.{◌≡◌, IfOk, map};
ghost use Rattle.graph_core.specs.Graphs.{logged, scalar_view};
ghost use Rattle.home_assign.specs.Moves.{AreMoves, is_moved, is_moved_at};

use crate::pairs::Pairs;
use debug_records::{Change, Kind};
use graph_core::Scalar;
use std::alloc::{AllocError, Global};

/// The computations of variables' values that changes moved away from places.
#[derive(Drop)]
pub struct Moves {
    /// The variable and the place of each.
    pairs: Pairs,
}

/// Whether a change moved a computation away.
fn is_moved(kind: Kind) -> bool
    ensures { result ≡ is_moved kind }
{
    matches!(kind, Kind::Moved)
}

/// What changes moved away.
pub fn moved_by(alloc: Global, changes: &[Change]) -> Result<Moves, AllocError>
    ensures { IfOk result (λ moves. AreMoves (map logged changes.now) moves) }
{
    let mut pairs = Pairs::new(alloc);
    let mut left = changes;
    while let [change, rest @ ..] = left {
        if is_moved(change.kind) {
            pairs.add(change.var.0, change.place.0)?;
        }
        left = rest;
    }
    Ok(Moves { pairs })
}

impl Moves {
    /// Whether the computation of a scalar's value was moved away from a place.
    pub(crate) fn has(&self, scalars: &[Scalar], scalar: u32, place: u32) -> bool
        ensures { result ≡ is_moved_at (map scalar_view scalars.now) self.now scalar place }
    {
        match scalars.get(scalar as usize) {
            Some(of) => self.pairs.has(of.var.0, place),
            None => false,
        }
    }
}
