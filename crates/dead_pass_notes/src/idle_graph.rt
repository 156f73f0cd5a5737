//! A graph and what goes of it.

ghost use Rattle.std.specs.Prelude.{◌≡◌, ℕ, ◌+◌, ◌<◌, ◌^◌, IfOk, IfSome, None, false, length, slice_index_or, true};
ghost use Rattle.graph_core.specs.Graphs.{Name as OfName, graph_view, operand_view};
ghost use Rattle.graph_core.specs.WellMarked.{IsLocal};
ghost use Rattle.dead_pass_rule.specs.Asking.{is_going};
ghost use Rattle.dead_pass_rule.specs.Free.{AreNamed};
ghost use Rattle.dead_pass_rule.specs.Walks.{turn_of};
ghost use Rattle.graph_paths.specs.PathMarksTable.{bits_of};

use dead_pass_rule::{idle_writes, turn_at};
use dead_pass_writes::PlaceWrites;
use graph_core::{Graph, Name, Operand};
use graph_paths::{Marks, reached_blocks};
use places::FlowTable;
use std::alloc::{AllocError, Global};

/// A graph and what goes of it.
#[derive(Drop)]
pub struct IdleGraph<'a> {
    pub graph: &'a Graph,
    /// The assignments of its unit.
    pub flow: &'a FlowTable,
    /// Which names places write once, and where.
    pub writes: PlaceWrites,
    /// For each block by how many instructions stand behind a write the turn in which it goes; 0 where it stays.
    pub turns: Vec<Vec<u32>>,
    /// The blocks that paths reach, as bits of a row.
    pub reached: Marks,
    pub ghost few: { length graph.now.blocks.items + 2 < 2 ^ 32 },
}

/// Whether all writes of a block stay.
fn all_stay(turns: &[u32]) -> bool
    ensures { result ≡ true → (left : ℕ) → slice_index_or turns.now left 0 ≡ 0 }
{
    for turn in turns {
        if *turn != 0 {
            return false;
        }
    }
    true
}

impl<'a> IdleGraph<'a> {
    ghost use Rattle.dead_pass_notes.specs.Idle.{IsBorneOut, assignments_of, graph_of};

    /// A graph and what goes of it.
    pub fn new(
        alloc: Global,
        graph: &'a Graph,
        flow: &'a FlowTable,
    ) -> Result<IdleGraph<'a>, AllocError>
        requires few { length graph.now.blocks.items + 2 < 2 ^ 32 }
        requires named { AreNamed (graph_view graph.now).blocks graph.now.name_count }
        ensures graph { IfOk result (λ idle. graph_of idle ≡ graph_view graph.now) }
        ensures assignments { IfOk result (λ idle. assignments_of idle ≡ flow.now.assignments.items) }
        ensures borne_out { IfOk result (λ idle. IsBorneOut idle) }
    {
        let writes = PlaceWrites::new(alloc, graph)?;
        let reached = reached_blocks(alloc, &graph.blocks)?;
        let turns = idle_writes(alloc, graph, flow, &writes, &reached)?;
        Ok(IdleGraph {
            graph,
            flow,
            writes,
            turns,
            reached,
        })
    }

    /// Whether nothing goes.
    pub fn stays(&self) -> bool
        ensures { result ≡ true → (n left : ℕ) → is_going (turn_of self.now.turns.items) n left ≡ false }
    {
        for turns in &self.turns {
            if !all_stay(turns) {
                return false;
            }
        }
        true
    }

    /// Whether some path reaches a block.
    pub fn is_reached(&self, block: u32) -> bool
        ensures { result ≡ bits_of self.now.reached 0 block }
    {
        self.reached.get(0, block)
    }

    /// Whether the write goes that stands in a block with so many instructions behind it.
    pub fn goes_at(&self, block: u32, left: usize) -> bool
        ensures { result ≡ is_going (turn_of self.now.turns.items) block left }
    {
        turn_at(&self.turns, block, left) != 0
    }

    /// The temporary that an operand reads, where code motion did not make it.
    pub fn local(&self, operand: Operand) -> Option<Name>
        ensures some { IfSome result
            (λ name. (operand_view operand ≡ OfName name.0) × IsLocal (graph_of self.now) name.0) }
        ensures none { result ≡ None → (t : ℕ) → operand_view operand ≡ OfName t → IsLocal (graph_of self.now) t → ⊥ }
    {
        match operand {
            Operand::Name(name) => {
                let is_temporary = (name.0 as usize) >= self.graph.scalars.len();
                if is_temporary && name.0 < self.graph.first_moved {
                    Some(name)
                } else {
                    None
                }
            }
            Operand::Constant(_) | Operand::StaticAddress { .. } => None,
        }
    }
}
