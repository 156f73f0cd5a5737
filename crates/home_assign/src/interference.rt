//! Which names of a graph interfere.

ghost use Rattle.std.specs.Prelude.{◌≡◌, ◌<◌, ◌↔◌, ℕ, IfOk, false, true};
ghost use Rattle.graph_core.specs.Graphs.{graph_view};
ghost use Rattle.home_assign.specs.Clashes.{Clashes, MayHaveHomes};
ghost use Rattle.home_assign.specs.Registers.{AreClashesOf, has};

use crate::registers::Interference;
use crate::walk::walk_over;
use graph_core::Graph;
use graph_solve_live::live_rows;
use std::alloc::{AllocError, Global};

/// Which names of a graph interfere; none has a register.
pub fn interference_of(alloc: Global, graph: &Graph) -> Result<Interference, AllocError>
    requires { MayHaveHomes (graph_view graph.now) }
    ensures clashes { IfOk result (λ all. AreClashesOf (graph_view graph.now) all) }
    ensures free { IfOk result (λ all. (register x : ℕ) → register < 15 → has all register x ≡ false) }
{
    let live = live_rows(alloc, graph)?;
    let walk = walk_over(alloc, graph, &live)?;
    Ok(Interference {
        rows: walk.rows,
        names: walk.names,
    })
}
