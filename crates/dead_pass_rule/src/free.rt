//! Which writes of a graph may go, if nothing asks for their names.

ghost use Rattle.std.specs.Prelude.{◌≡◌, ◌↔◌, [], ◌∷◌, IfOk, List, map, slice_get, true, ℕ, Some};
ghost use Rattle.graph_core.specs.Graphs.{Block as BlockForm, block_view, graph_view, instruction_view};
ghost use Rattle.graph_core.specs.Validity as behind;
ghost use Rattle.dead_pass_writes.specs.Telling.{Tells};
ghost use Rattle.dead_pass_rule.specs.Free.{AreFreeFrom, AreFreeOnce, IsFreeOnce, IsWrittenOnce, MayGoOnce, placed};
ghost use Rattle.dead_pass_rule.specs.Idle as idle;

use dead_pass_writes::PlaceWrites;
use debug_records::Place;
use graph_core::{Block, Graph, Instr, Name};
use places::FlowTable;
use std::alloc::{AllocError, Global};

/// What tells which writes of a graph may go: which names its places write once, and which variables the places of the
/// unit assign.
#[derive(Drop)]
pub struct FreeWrites<'a> {
    pub graph: &'a Graph,
    pub writes: &'a PlaceWrites,
    pub flow: &'a FlowTable,
}

/// The place in force behind an instruction.
fn place_behind(place: Option<Place>, instruction: &Instr) -> Option<Place>
    ensures { placed result ≡ behind.place_behind (instruction_view instruction.now ∷ []) (placed place) }
{
    match instruction {
        Instr::Marker(begun) => Some(*begun),
        _ => place,
    }
}

impl<'a> FreeWrites<'a> {
    /// Whether one instruction writes a name in a place, and nothing else does.
    fn is_once(&self, place: Place, name: Name) -> bool
        requires { Tells (graph_view self.now.graph.now) self.now.writes.now }
        ensures { (result ≡ true) ↔ IsWrittenOnce (graph_view self.now.graph.now) place.0 name.0 }
    {
        match self.writes.only(place.0, name.0) {
            Some(_) => true,
            None => false,
        }
    }

    /// Whether a place assigns the variable of a scalar.
    fn assigns(&self, place: Place, name: Name) -> bool
        ensures { result
            ≡ idle.assigns_scalar self.now.flow.now.assignments.items (graph_view self.now.graph.now) place.0
            name.0 }
    {
        match self.graph.scalars.get(name.0 as usize) {
            Some(scalar) => self.flow.assigns(place, scalar.var),
            None => false,
        }
    }

    /// Whether a write of a name in a place may go, if it stands there.
    fn may_go(&self, place: Place, name: Name) -> bool
        requires { Tells (graph_view self.now.graph.now) self.now.writes.now }
        ensures { (result ≡ true)
            ↔ MayGoOnce self.now.flow.now.assignments.items (graph_view self.now.graph.now) place.0 name.0 }
    {
        if (name.0 as usize) >= self.graph.scalars.len() {
            return true;
        }
        self.is_once(place, name) && self.assigns(place, name)
    }

    /// Whether what an instruction writes where a place is in force may go, if it stands there.
    fn is_free(&self, place: Option<Place>, instruction: &Instr) -> bool
        requires { Tells (graph_view self.now.graph.now) self.now.writes.now }
        ensures { (result ≡ true) ↔ IsFreeOnce self.now.flow.now.assignments.items (graph_view self.now.graph.now)
            (placed place) (instruction_view instruction.now) }
    {
        match (place, instruction.target()) {
            (Some(place), Some(name)) => self.may_go(place, name),
            _ => false,
        }
    }

    /// Tells of each instruction whether what it writes may go. The first stands where this place is in force.
    fn free_all(
        &self,
        alloc: Global,
        place: Option<Place>,
        instructions: &[Instr],
    ) -> Result<Vec<bool>, AllocError>
        requires { Tells (graph_view self.now.graph.now) self.now.writes.now }
        ensures { IfOk result (λ told. AreFreeFrom self.now.flow.now.assignments.items (graph_view self.now.graph.now)
            (placed place) (map instruction_view instructions.now) told.items) }
    {
        let mut told = Vec::new(alloc);
        let mut place = place;
        for instruction in instructions {
            told.push(self.is_free(place, instruction))?;
            place = place_behind(place, instruction);
        }
        Ok(told)
    }

    /// Tells of each instruction of a block whether what it writes may go.
    fn free_block(&self, alloc: Global, block: &Block) -> Result<Vec<bool>, AllocError>
        requires { Tells (graph_view self.now.graph.now) self.now.writes.now }
        ensures { IfOk result (λ told. AreFreeFrom self.now.flow.now.assignments.items (graph_view self.now.graph.now)
            (block_view block.now).place (block_view block.now).instructions told.items) }
    {
        self.free_all(alloc, block.place, &block.instructions)
    }

    /// Tells this of the instructions of blocks.
    pub fn free_blocks(&self, alloc: Global, blocks: &[Block]) -> Result<Vec<Vec<bool>>, AllocError>
        requires { Tells (graph_view self.now.graph.now) self.now.writes.now }
        ensures { IfOk result (λ told. (n : ℕ) (b : BlockForm) → slice_get (map block_view blocks.now) n ≡ Some b
            → AreFreeOnce self.now.flow.now.assignments.items (graph_view self.now.graph.now) b
            (slice_get told.items n)) }
    {
        let mut told = Vec::new(alloc);
        for block in blocks {
            told.push(self.free_block(alloc, block)?)?;
        }
        Ok(told)
    }
}
