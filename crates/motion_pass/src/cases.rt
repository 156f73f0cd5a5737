//! The assignments that read temporaries, as cases of a log.

ghost use Rattle.std.specs.Prelude.{◌≡◌, ◌↔◌, ◌<◌, ◌≤◌, OnOk, Some, length, map, option_map, slice_get, true};
ghost use Rattle.debug_records.specs.declared.change.Var as declared-var;
ghost use Rattle.memory_map.specs.declared.map.Room.TheVariants.{Large};
ghost use Rattle.graph_core.specs.declared.name.Name as declared-name;
ghost use Rattle.graph_core.specs.Bounds.{most_blocks};
ghost use Rattle.graph_core.specs.Computations.{Computation};
ghost use Rattle.graph_core.specs.Graphs as spec;
ghost use Rattle.graph_core.specs.Graphs.{block_view, graph_view, scalar_view};
ghost use Rattle.pass_law.specs.Changes.{Adds};
ghost use Rattle.motion_pass_problems.specs.Inner.{point_at};
ghost use Rattle.motion_pass_placement.specs.Placed.{IsPlaced};
ghost use Rattle.motion_pass_placement.specs.Moves.{IsReadingAssignment};
ghost use Rattle.motion_pass_placement.specs.Moving.{IsReadAt};
ghost use Rattle.motion_pass.specs.Cases.{IsReadingAt, IsReadingIn, variable_in};
ghost use Rattle.motion_pass.specs.Placing.{placed};

use debug_records::{Place, Var};
use graph_core::{Block, Graph, Name, Scalar};
use motion_pass_placement::{Action, Placement};
use pass_law::Case;
use std::alloc::AllocError;

/// A point of a graph: the place in force there, if there is one, its block, how many instructions stand before it, and
/// whether a temporary is read there.
#[derive(Drop)]
struct Point {
    place: Option<Place>,
    block: u32,
    index: usize,
    reads: bool,
}

/// Whether an instruction reads a temporary.
fn reads_at(placement: &Placement, number: u32, index: usize) -> bool
    ensures { (g : spec.Graph) → IsPlaced g placement.now → (b : spec.Block) → slice_get g.blocks number ≡ Some b
        → index < length b.instructions
        → (result ≡ true) ↔ ((e : Computation) × IsReadAt g.blocks e (point_at number b index)) }
{
    match placement.action(number, index) {
        Action::Keep => false,
        Action::Read(_) => true,
        Action::Compute(_, _) => true,
    }
}

/// The variable that a name is, if it is one.
fn variable_of(scalars: &[Scalar], name: Name) -> Option<Var>
    ensures { option_map (λ (v : declared-var.Var). v.0) result ≡ variable_in (map scalar_view scalars.now) name.0 }
{
    match scalars.get(name.0 as usize) {
        Some(scalar) => Some(scalar.var),
        None => None,
    }
}

/// Appends the case of what a point writes, if it reads a temporary and writes a scalar.
fn add_case(
    scalars: &[Scalar],
    point: &Point,
    target: Option<Name>,
    cases: &mut Vec<Case>,
) -> Result<(), AllocError>
    ensures { OnOk result
        (Adds (IsReadingAt (map scalar_view scalars.now) point.now.reads (placed point.now.place) point.now.block
        point.now.index (option_map (λ (n : declared-name.Name). n.0) target)) cases.old.items cases.new.items) }
{
    if !point.reads {
        return Ok(());
    }
    let Some(name) = target else {
        return Ok(());
    };
    let Some(place) = point.place else {
        return Ok(());
    };
    let Some(var) = variable_of(scalars, name) else {
        return Ok(());
    };
    cases.push(Case {
        place,
        block: point.block as usize,
        index: point.index,
        operand: 0,
        var,
    })?;
    Ok(())
}

/// Appends the cases of a block.
fn add_block(
    graph: &Graph,
    placement: &Placement,
    number: u32,
    block: &Block,
    cases: &mut Vec<Case>,
) -> Result<(), AllocError>
    requires are { IsPlaced (graph_view graph.now) placement.now }
    requires at { slice_get (graph_view graph.now).blocks number ≡ Some (block_view block.now) }
    ensures { OnOk result
        (Adds
        (IsReadingIn (graph_view graph.now).scalars (graph_view graph.now).blocks number (block_view block.now))
        cases.old.items cases.new.items) }
{
    let mut place = block.place;
    for index in 0..block.instructions.len() {
        let instruction = &block.instructions[index];
        let point = Point {
            place,
            block: number,
            index,
            reads: reads_at(placement, number, index),
        };
        add_case(&graph.scalars, &point, instruction.target(), cases)?;
        place = instruction.marker().or(place);
    }
    Ok(())
}

/// Appends the cases of a function: the assignments of scalars that read temporaries, as its computations are placed.
/// They come block by block.
pub fn add_moved(
    graph: &Graph,
    placement: &Placement,
    cases: &mut Vec<Case>,
) -> Result<(), AllocError>
    requires are { IsPlaced (graph_view graph.now) placement.now }
    requires few { length (graph_view graph.now).blocks ≤ most_blocks Large }
    ensures { OnOk result (Adds (IsReadingAssignment (graph_view graph.now)) cases.old.items cases.new.items) }
{
    for number in 0..graph.blocks.len() {
        let block = &graph.blocks[number];
        add_block(graph, placement, number as u32, block, cases)?;
    }
    Ok(())
}
