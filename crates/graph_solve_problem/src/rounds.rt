//! Values that fall, edge by edge, until each edge is settled.

ghost use Rattle.std.specs.Prelude.{◌≡◌, ◌<◌, ℕ, true, false, OnOk, IfOk, length, vec_len};
ghost use Rattle.graph_solve_problem.specs.Solution.{AreWithin};
ghost use Rattle.graph_solve_problem.specs.Rounds.{AreCounted, AreAllSettled, Follows, IsRelaxed, falls_left};

use crate::facts::Facts;
use crate::flow_graph::Edge;
use crate::problem::Problem;
use std::alloc::{AllocError, Global};

/// What is left at a block where this value comes to it from another.
fn met_value<P: Problem>(
    alloc: Global,
    problem: &P,
    from: u32,
    from_value: &Facts,
    to_value: &Facts,
) -> Result<Facts, AllocError>
    requires from { (P.flow problem.now).IsValue from_value.now }
    requires to { (P.flow problem.now).IsValue to_value.now }
    ensures { IfOk result (λ value.
        value ≡ (P.flow problem.now).meet to_value.now ((P.flow problem.now).transfer from from_value.now)) }
{
    let made = problem.transfer(alloc, from, from_value)?;
    problem.meet(alloc, to_value, &made)
}

/// Follows an edge: lets the value behind it fall to its meet with what comes along it. Tells whether it fell.
fn relax<P: Problem>(
    alloc: Global,
    problem: &P,
    height: u32,
    edge: Edge,
    values: &mut Vec<Facts>,
    counts: &mut Vec<u32>,
) -> Result<bool, AllocError>
    requires height { height ≡ (P.flow problem.now).height }
    requires from { edge.from < length values.old.items }
    requires to { edge.to < length values.old.items }
    requires counted { AreCounted (P.flow problem.now) values.old.items counts.old.items }
    ensures { IfOk result
        (IsRelaxed (P.flow problem.now) edge values.old.items counts.old.items values.new.items counts.new.items) }
{
    let from = edge.from as usize;
    let to = edge.to as usize;
    let value = met_value(alloc, problem, edge.from, &values[from], &values[to])?;
    if value.is_same(&values[to]) {
        return Ok(false);
    }
    values[to] = value;
    prove!(counts[to] < height);
    counts[to] += 1;
    Ok(true)
}

/// Follows each edge once. Tells whether a value fell.
pub(crate) fn round<P: Problem>(
    alloc: Global,
    problem: &P,
    height: u32,
    edges: &[Edge],
    values: &mut Vec<Facts>,
    counts: &mut Vec<u32>,
) -> Result<bool, AllocError>
    requires height { height ≡ (P.flow problem.now).height }
    requires within { AreWithin (length values.old.items) edges.now }
    requires counted { AreCounted (P.flow problem.now) values.old.items counts.old.items }
    ensures follows { OnOk result
        (Follows (P.flow problem.now) edges.now values.old.items counts.old.items values.new.items counts.new.items) }
    ensures settled { IfOk result
        (λ changed. changed ≡ false → AreAllSettled (P.flow problem.now) edges.now values.new.items) }
    ensures fell { IfOk result (λ changed.
        changed ≡ true → falls_left height counts.new.items < falls_left height counts.old.items) }
{
    let mut changed = false;
    for edge in edges {
        if relax(alloc, problem, height, *edge, values, counts)? {
            changed = true;
        }
    }
    Ok(changed)
}
