//! The graph of a function with its computations moved.

ghost use Rattle.std.specs.Prelude.{◌≡◌, ◌+◌, ◌<◌, ◌≤◌, ◌^◌, ◌++◌, ℕ, IfOk, ◌∷◌, [], OnOk, Some, length, map, slice_get};
ghost use Rattle.memory_map.specs.declared.map.Room.TheVariants.{Large};
ghost use Rattle.graph_core.specs.Graphs as spec;
ghost use Rattle.graph_core.specs.Graphs.{block_view, end_view, graph_view, instruction_view};
ghost use Rattle.graph_core.specs.Bounds.{most_blocks};
ghost use Rattle.graph_core.specs.Uses.{target_of};
ghost use Rattle.graph_core.specs.Validity.{place_at_end};
ghost use Rattle.motion_pass_problems.specs.Inner.{point_at};
ghost use Rattle.motion_pass_placement.specs.Placed.{IsPlaced};
ghost use Rattle.motion_pass_placement.specs.Moving.{AreMoved, IsMoved};
ghost use Rattle.motion_pass.specs.Placing.{LeadInside, placed};

use debug_records::Place;
use graph_core::{Block, End, Graph, Instr, Label, Name, Operand};
use motion_pass_placement::{Action, Placement};
use std::alloc::{AllocError, Global};

/// A graph whose computations are moved as they are placed.
#[derive(Drop)]
struct Moving<'a> {
    alloc: Global,
    graph: &'a Graph,
    placement: &'a Placement,
}

/// Appends the instruction that reads a temporary in place of a computation.
fn push_read(instruction: &Instr, temporary: Name, out: &mut Vec<Instr>) -> Result<(), AllocError>
    ensures { (x : ℕ) → target_of (instruction_view instruction.now) ≡ Some x
        → OnOk result
        (map instruction_view out.new.items
        ≡ map instruction_view out.old.items ++ spec.Move x (spec.Name temporary.0) ∷ []) }
{
    let Some(target) = instruction.target() else {
        return Ok(());
    };
    out.push(Instr::Move {
        target,
        from: Operand::Name(temporary),
    })?;
    Ok(())
}

/// The place in force at the end of a block.
fn end_place(block: &Block) -> Option<Place>
    ensures { placed result ≡ place_at_end (block_view block.now) }
{
    let mut place = block.place;
    for index in 0..block.instructions.len() {
        let instruction = &block.instructions[index];
        place = instruction.marker().or(place);
    }
    place
}

impl Moving<'_> {
    ghost use Rattle.motion_pass.specs.Placing.{AreBlocksMoved, IsBlockBehind, IsEdge, IsEndBehind, IsEndOf, IsLedBehind, IsMoving, IsPushed, blocks_of, first_of, treated_in};

    /// Appends what becomes of an instruction.
    fn push_instruction(
        &self,
        number: u32,
        index: usize,
        instruction: &Instr,
        out: &mut Vec<Instr>,
    ) -> Result<(), AllocError>
        requires { IsMoving self.now }
        ensures { (b : spec.Block) → slice_get (blocks_of self.now) number ≡ Some b → slice_get b.instructions index
            ≡ Some (instruction_view instruction.now)
            → OnOk result (IsPushed self.now (point_at number b index) (instruction_view instruction.now)
            (map instruction_view out.old.items) (map instruction_view out.new.items)) }
    {
        match self.placement.action(number, index) {
            Action::Keep => {
                let same = instruction.duplicate(self.alloc)?;
                out.push(same)?;
                Ok(())
            }
            Action::Read(temporary) => {
                push_read(instruction, temporary, out)?;
                Ok(())
            }
            Action::Compute(computation, temporary) => {
                let done = computation.into_name(temporary);
                out.push(done)?;
                push_read(instruction, temporary, out)?;
                Ok(())
            }
        }
    }

    /// What becomes of the instructions of a block.
    fn instructions(&self, number: u32, block: &Block) -> Result<Vec<Instr>, AllocError>
        requires moving { IsMoving self.now }
        requires at { slice_get (blocks_of self.now) number ≡ Some (block_view block.now) }
        ensures { IfOk result (λ made.
            AreMoved (blocks_of self.now) (first_of self.now) (treated_in self.now) number
            (block_view block.now).end (block_view block.now).instructions (map instruction_view made.items)) }
    {
        let mut made = Vec::new(self.alloc);
        for index in 0..block.instructions.len() {
            let instruction = &block.instructions[index];
            self.push_instruction(number, index, instruction, &mut made)?;
        }
        Ok(made)
    }

    /// Where an edge leads: on by a new block, if something is done on it.
    fn led(
        &self,
        from: u32,
        place: Option<Place>,
        to: Label,
        added: &mut Vec<Block>,
    ) -> Result<Label, AllocError>
        requires moving { IsMoving self.now }
        requires edge { IsEdge self.now from to.0 }
        requires room { length (blocks_of self.now) + length added.old.items < 2 ^ 32 }
        ensures { IfOk result (λ label.
            IsLedBehind self.now from (placed place) to.0 label.0 (map block_view added.old.items)
            (map block_view added.new.items)) }
    {
        let instructions = self.placement.on_edge(self.alloc, from, to.0)?;
        if instructions.is_empty() {
            return Ok(to);
        }
        let label = Label((self.graph.blocks.len() + added.len()) as u32);
        added.push(Block {
            place,
            instructions,
            end: End::Jump(to),
        })?;
        Ok(label)
    }

    /// What becomes of a block's end. What is done on its only edge is appended to its instructions.
    fn end(
        &self,
        from: u32,
        place: Option<Place>,
        end: End,
        out: &mut Vec<Instr>,
        added: &mut Vec<Block>,
    ) -> Result<End, AllocError>
        requires moving { IsMoving self.now }
        requires at { IsEndOf self.now from (end_view end) }
        requires room { length (blocks_of self.now) + length added.old.items + 1 < 2 ^ 32 }
        ensures { IfOk result (λ made.
            IsEndBehind self.now from (placed place) (end_view end) (end_view made)
            (map instruction_view out.old.items) (map instruction_view out.new.items)
            (map block_view added.old.items) (map block_view added.new.items)) }
    {
        match end {
            End::Return(_) => Ok(end),
            End::Jump(to) => {
                let mut done = self.placement.on_edge(self.alloc, from, to.0)?;
                out.append(&mut done)?;
                Ok(end)
            }
            End::Branch {
                comparison,
                left,
                right,
                then,
                otherwise,
            } => {
                let then = self.led(from, place, then, added)?;
                let otherwise = self.led(from, place, otherwise, added)?;
                Ok(End::Branch {
                    comparison,
                    left,
                    right,
                    then,
                    otherwise,
                })
            }
        }
    }

    /// What becomes of a block.
    fn block(&self, number: u32, block: &Block, added: &mut Vec<Block>) -> Result<Block, AllocError>
        requires moving { IsMoving self.now }
        requires at { slice_get (blocks_of self.now) number ≡ Some (block_view block.now) }
        requires room { length (blocks_of self.now) + length added.old.items + 1 < 2 ^ 32 }
        ensures { IfOk result (λ made.
            IsBlockBehind self.now number (block_view block.now) (block_view made) (map block_view added.old.items)
            (map block_view added.new.items)) }
    {
        let mut instructions = self.instructions(number, block)?;
        let place = end_place(block);
        let end = self.end(number, place, block.end, &mut instructions, added)?;
        Ok(Block {
            place: block.place,
            instructions,
            end,
        })
    }

    /// What becomes of the blocks, and behind them the new ones.
    fn blocks(&self) -> Result<Vec<Block>, AllocError>
        requires { IsMoving self.now }
        ensures { IfOk result (λ all. AreBlocksMoved self.now (map block_view all.items)) }
    {
        let mut moved = Vec::new(self.alloc);
        let mut added = Vec::new(self.alloc);
        for number in 0..self.graph.blocks.len() {
            let block = &self.graph.blocks[number];
            let made = self.block(number as u32, block, &mut added)?;
            moved.push(made)?;
        }
        moved.append(&mut added)?;
        Ok(moved)
    }
}

/// The graph of a function with its computations placed so.
pub fn moved_graph(alloc: Global, graph: &Graph, placement: &Placement) -> Result<Graph, AllocError>
    requires are { IsPlaced (graph_view graph.now) placement.now }
    requires few { length (graph_view graph.now).blocks ≤ most_blocks Large }
    requires inside { LeadInside (graph_view graph.now).blocks }
    ensures { IfOk result (λ made. IsMoved (graph_view graph.now) (graph_view made)) }
{
    let moving = Moving {
        alloc,
        graph,
        placement,
    };
    let blocks = moving.blocks()?;
    let parameters = Vec::from_slice(alloc, &graph.parameters)?;
    let scalars = Vec::from_slice(alloc, &graph.scalars)?;
    let objects = Vec::from_slice(alloc, &graph.objects)?;
    Ok(Graph {
        entry: graph.entry,
        parameters,
        scalars,
        objects,
        name_count: placement.end_name(),
        first_moved: graph.first_moved,
        blocks,
    })
}
