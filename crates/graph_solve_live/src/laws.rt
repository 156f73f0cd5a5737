//! Laws that others cite.

ghost use Rattle.graph_solve_live.specs.Inside.{IsLiveInside, WalkIsMet, WalkIsTransfer};
ghost use Rattle.graph_solve_live.specs.Unread.{UnreadIsNotReadFirst};

use graph_solve_problem::Problem;

/// A name is unread from a point on exactly where no path from there on reads it before it writes it: what `live`
/// tells is what units call unread.
pub fn unread_is_not_read_first()
    ensures { UnreadIsNotReadFirst }
{}

/// A walk over all steps of a block leads from the facts at the one end of the block to those at the other.
pub fn walk_is_transfer<P: Problem>(_problem: &P)
    ensures { WalkIsTransfer (P.flow _problem.now) }
{}

/// A walk over steps leads from the meet over all paths to a block to the meet over all paths to the point that the
/// walk comes to: so the facts inside a block are known from those at its end.
pub fn walk_is_met<P: Problem>(_problem: &P)
    ensures { WalkIsMet (P.flow _problem.now) }
{}

/// Steps back from the names that are live at the end of a block lead to those that are live inside it.
pub fn is_live_inside()
    ensures { IsLiveInside }
{}
