//! What is written at one point of a graph, and goes.

ghost use Rattle.std.specs.Prelude.{◌≡◌, OnOk, map, option_map};
ghost use Rattle.graph_core.specs.declared.name.Name as declared-name;
ghost use Rattle.graph_core.specs.Graphs.{scalar_view};
ghost use Rattle.debug_records.specs.declared.change.Var as declared-var;
ghost use Rattle.pass_law.specs.Changes.{Adds};
ghost use Rattle.dead_pass_notes.specs.Points.{IsRemovedAt, placed, variable_in};

use debug_records::{Place, Var};
use graph_core::{Name, Scalar};
use pass_law::Case;
use std::alloc::AllocError;

/// A point of a graph: the place in force there, if there is one, its block, how many instructions stand before it, and
/// whether what it writes goes.
#[derive(Drop)]
pub struct Point {
    pub place: Option<Place>,
    pub block: u32,
    pub index: usize,
    pub goes: bool,
}

/// The variable that a name is, if it is one.
fn variable_of(scalars: &[Scalar], name: Name) -> Option<Var>
    ensures { option_map (λ (v : declared-var.Var). v.0) result ≡ variable_in (map scalar_view scalars.now) name.0 }
{
    match scalars.get(name.0 as usize) {
        Some(scalar) => Some(scalar.var),
        None => None,
    }
}

/// Appends the case of what a point writes, if it goes and is a scalar.
pub fn add_write(
    scalars: &[Scalar],
    point: &Point,
    target: Option<Name>,
    cases: &mut Vec<Case>,
) -> Result<(), AllocError>
    ensures { OnOk result
        (Adds (IsRemovedAt (map scalar_view scalars.now) point.now.goes (placed point.now.place) point.now.block
        point.now.index (option_map (λ (n : declared-name.Name). n.0) target)) cases.old.items cases.new.items) }
{
    if !point.goes {
        return Ok(());
    }
    let Some(name) = target else {
        return Ok(());
    };
    let Some(place) = point.place else {
        return Ok(());
    };
    let Some(var) = variable_of(scalars, name) else {
        return Ok(());
    };
    cases.push(Case {
        place,
        block: point.block as usize,
        index: point.index,
        operand: 0,
        var,
    })?;
    Ok(())
}
