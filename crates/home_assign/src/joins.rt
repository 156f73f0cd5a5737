//! Which names are copies of each other.

ghost use Rattle.std.specs.Prelude.{◌≡◌, ◌<◌, ℕ, IfOk, None, length, map, slice_index_or};
ghost use Rattle.graph_core.specs.Graphs.{graph_view, instruction_view};
ghost use Rattle.home_assign.specs.Joins.{IsFirst};
ghost use Rattle.home_assign.specs.Joining as joining;
ghost use Rattle.home_assign.specs.Joining.{with_copies, with_join};

use graph_core::{Graph, Instr, Operand};
use std::alloc::{AllocError, Global};

/// The earlier one of a name, if there is one, and another.
fn earliest(known: Option<u32>, other: u32) -> u32
    ensures { result ≡ joining.earliest known other }
{
    match known {
        Some(known) => known.min(other),
        None => other,
    }
}

/// Of two names that an instruction joins, the later one is joined to the earlier one.
fn join(first: &mut [Option<u32>], x: u32, y: u32)
    ensures { first.new ≡ with_join first.old x y }
{
    if x == y {
        return;
    }
    let later = x.max(y) as usize;
    if later < first.len() {
        first[later] = Some(earliest(first[later], x.min(y)));
    }
}

/// What the instructions of a block join.
fn join_copies(first: &mut [Option<u32>], instructions: &[Instr])
    ensures { first.new ≡ with_copies (map instruction_view instructions.now) first.old }
{
    let mut left = instructions;
    while let [instruction, rest @ ..] = left {
        if let Instr::Move {
            target,
            from: Operand::Name(from),
        } = instruction
        {
            join(first, target.0, from.0);
        }
        left = rest;
    }
}

/// For each name of a graph the earliest earlier name that it is a copy of, or that is a copy of it.
pub fn first_joined(alloc: Global, graph: &Graph) -> Result<Vec<Option<u32>>, AllocError>
    ensures each { IfOk result (λ v. length v.items ≡ graph.now.name_count) }
    ensures first { IfOk result (λ v.
        (x : ℕ) → x < graph.now.name_count → IsFirst (graph_view graph.now) x (slice_index_or v.items x None)) }
{
    let mut first = vec![in alloc; None; graph.name_count as usize]?;
    let mut left = graph.blocks.as_slice();
    while let [block, rest @ ..] = left {
        join_copies(&mut first, &block.instructions);
        left = rest;
    }
    Ok(first)
}
