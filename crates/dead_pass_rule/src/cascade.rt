//! The writes that go, found by passes back over the blocks.

ghost use Rattle.std.specs.Prelude.{◌≡◌, ℕ, ◌+◌, ◌<◌, ◌^◌, IfOk, List, OnOk, Some, false, length, map, slice_get, slice_index_or, true};
ghost use Rattle.graph_core.specs.Graphs.{Block as BlockForm, block_view, graph_view, instruction_view};
ghost use Rattle.graph_core.specs.Uses.{target_of};
ghost use Rattle.graph_paths.specs.PathMarksTable.{bits_of};
ghost use Rattle.graph_paths.specs.Reached.{AreLed};
ghost use Rattle.dead_pass_writes.specs.Telling.{Tells};
ghost use Rattle.dead_pass_rule.specs.Asking.{is_going};
ghost use Rattle.dead_pass_rule.specs.Cascade.{AllGo, AllNeeded, AllStay, AreAllAsked, Cascades, GoesOneMore, HasTurn, HaveRows, IsSound, Passes, WalksBack};
ghost use Rattle.dead_pass_rule.specs.Certified.{AreIdle};
ghost use Rattle.dead_pass_rule.specs.Free.{AreFree, AreNamed, flags_in};
ghost use Rattle.dead_pass_rule.specs.Walks.{turn_of};

use crate::asked::{asked_names, begin, is_told, step_back};
use crate::free::FreeWrites;
use crate::turns::{is_gone, turn_at};
use dead_pass_writes::PlaceWrites;
use graph_core::{Block, Graph, Instr};
use graph_paths::Marks;
use places::FlowTable;
use std::alloc::{AllocError, Global};

/// A graph of which writes go: which of them may, and to which of its blocks paths come.
#[derive(Drop)]
struct FreeGraph<'a> {
    graph: &'a Graph,
    /// The assignments of its unit.
    flow: &'a FlowTable,
    /// The blocks that paths reach, as bits of a row.
    reached: &'a Marks,
    /// For each block by how many instructions stand before a write whether it may go.
    may_go: Vec<Vec<bool>>,
    /// How many blocks it has.
    count: u32,
}

/// All writes of blocks stay.
fn all_stay(alloc: Global, blocks: &[Block]) -> Result<Vec<Vec<u32>>, AllocError>
    ensures rows { IfOk result (λ turns. HaveRows (map block_view blocks.now) turns.items) }
    ensures stay { IfOk result (λ turns. (n left : ℕ) → is_going (turn_of turns.items) n left ≡ false) }
{
    let mut turns = Vec::new(alloc);
    for block in blocks {
        turns.push(vec![in alloc; 0u32; block.instructions.len()]?)?;
    }
    Ok(turns)
}

/// The write goes that stands in a block with so many instructions behind it. False where there is none that stays.
fn put_turn(turns: &mut [Vec<u32>], block: u32, left: usize) -> bool
    ensures one { result ≡ true → GoesOneMore turns.old turns.new block left }
    ensures same { result ≡ false → turns.new ≡ turns.old }
    ensures gone { result ≡ false → HasTurn (slice_get turns.old block) left → is_going (turn_of turns.old) block left
        ≡ true }
{
    if block as usize >= turns.len() || left >= turns[block as usize].len() {
        return false;
    }
    if turn_at(turns, block, left) != 0 {
        return false;
    }
    turns[block as usize][left] = 1;
    true
}

/// A write goes, if it may, and nothing asks for its name behind it. Tells whether it is one more.
fn let_go(
    is_free: bool,
    turns: &mut [Vec<u32>],
    count: u32,
    marks: &Marks,
    number: u32,
    left: usize,
    instruction: &Instr,
) -> bool
    ensures one { result ≡ true → GoesOneMore turns.old turns.new number left }
    ensures free { result ≡ true → is_free ≡ true }
    ensures unasked { result ≡ true → (x : ℕ) → target_of (instruction_view instruction.now) ≡ Some x
        → bits_of marks.now count x ≡ false }
    ensures same { result ≡ false → turns.new ≡ turns.old }
    ensures asked { result ≡ false → is_free ≡ true → HasTurn (slice_get turns.old number) left
        → is_going (turn_of turns.old) number left ≡ false → (x : ℕ) → target_of (instruction_view instruction.now)
        ≡ Some x
        → bits_of marks.now count x ≡ true }
{
    if !is_free || is_told(count, marks, instruction.target()) {
        return false;
    }
    put_turn(turns, number, left)
}

/// The flag of this number; false where there is none.
fn flag(flags: &[bool], number: usize) -> bool
    ensures { result ≡ slice_index_or flags.now number false }
{
    match flags.get(number) {
        Some(flag) => *flag,
        None => false,
    }
}

/// The flags of a block.
fn row_of(rows: &[Vec<bool>], number: u32) -> &[bool]
    ensures { result.now ≡ flags_in (slice_get rows.now number) }
{
    match rows.get(number as usize) {
        Some(row) => row.as_slice(),
        None => &[],
    }
}

impl<'a> FreeGraph<'a> {
    ghost use Rattle.dead_pass_rule.specs.Cascading.{IsTold, assignments_of, graph_of};

    /// Writes of a block go, the last first, where these may. Tells whether one went, and in the row behind those of
    /// the blocks what is asked for at its start.
    fn walk_back(
        &self,
        alloc: Global,
        free: &[bool],
        turns: &mut [Vec<u32>],
        marks: &mut Marks,
        number: u32,
        block: &Block,
    ) -> Result<bool, AllocError>
        requires told { IsTold self.now }
        requires block { slice_get (graph_of self.now).blocks number ≡ Some (block_view block.now) }
        requires led { bits_of self.now.reached.now 0 number ≡ true }
        requires may_go { AreFree (assignments_of self.now) (graph_of self.now) (block_view block.now) free.now }
        requires sound { IsSound (assignments_of self.now) (graph_of self.now) turns.old marks.old }
        ensures { IfOk result
            (λ is_less. WalksBack (assignments_of self.now) (graph_of self.now) number (block_view block.now)
            turns.old marks.old (block_view block.now).instructions turns.new marks.new is_less) }
    {
        let names = self.graph.name_count;
        begin(alloc, self.count, names, marks, &block.end)?;
        let mut is_less = false;
        let instructions: &[Instr] = &block.instructions;
        for left in 0..instructions.len() {
            let at = instructions.len() - 1 - left;
            let instruction = &instructions[at];
            let may_go = flag(free, at);
            let went = let_go(may_go, turns, self.count, marks, number, left, instruction);
            is_less |= went;
            let gone = is_gone(turns, number, left, instruction);
            step_back(alloc, self.count, names, marks, instruction, gone)?;
        }
        Ok(is_less)
    }

    /// Writes of a block go, if paths come to it. What is told at its start is so much less. Tells whether one went.
    fn let_go_back(
        &self,
        alloc: Global,
        turns: &mut [Vec<u32>],
        marks: &mut Marks,
        number: u32,
    ) -> Result<bool, AllocError>
        requires told { IsTold self.now }
        requires block { number < self.now.count }
        requires sound { IsSound (assignments_of self.now) (graph_of self.now) turns.old marks.old }
        ensures cascades { IfOk result (λ is_less. Cascades (assignments_of self.now) (graph_of self.now)
            turns.old marks.old turns.new marks.new is_less) }
        ensures needed { IfOk result (λ is_less. is_less ≡ false → AreAllAsked (graph_of self.now) turns.old marks.old
            → bits_of self.now.reached.now 0 number ≡ true
            → AllNeeded (assignments_of self.now) (graph_of self.now) (turn_of turns.old) number) }
    {
        if !self.reached.get(0, number) {
            return Ok(false);
        }
        let block = &self.graph.blocks[number as usize];
        let free = row_of(&self.may_go, number);
        let is_less = self.walk_back(alloc, free, turns, marks, number, block)?;
        marks.keep(self.count, number);
        Ok(is_less)
    }

    /// Writes of the blocks go, the last block first. Tells whether one went.
    fn let_all_go(
        &self,
        alloc: Global,
        turns: &mut [Vec<u32>],
        marks: &mut Marks,
    ) -> Result<bool, AllocError>
        requires told { IsTold self.now }
        requires sound { IsSound (assignments_of self.now) (graph_of self.now) turns.old marks.old }
        ensures cascades { IfOk result (λ is_less. Cascades (assignments_of self.now) (graph_of self.now)
            turns.old marks.old turns.new marks.new is_less) }
        ensures needed { IfOk result (λ is_less. is_less ≡ false → AreAllAsked (graph_of self.now) turns.old marks.old
            → AllStay (assignments_of self.now) (graph_of self.now) (turn_of turns.old)
            (bits_of self.now.reached.now 0)) }
    {
        let mut is_less = false;
        for passed in 0..self.count {
            let number = self.count - 1 - passed;
            let went = self.let_go_back(alloc, turns, marks, number)?;
            is_less |= went;
        }
        Ok(is_less)
    }

    /// A pass: writes go by what stays now. Tells whether one went.
    fn pass(&self, alloc: Global, turns: &mut [Vec<u32>]) -> Result<bool, AllocError>
        requires told { IsTold self.now }
        requires rows { HaveRows (graph_of self.now).blocks turns.old }
        requires goes { AllGo (assignments_of self.now) (graph_of self.now) (turn_of turns.old) }
        ensures { IfOk result (Passes (assignments_of self.now) (graph_of self.now) (bits_of self.now.reached.now 0)
            turns.old turns.new) }
    {
        let mut marks = asked_names(alloc, turns, self.graph.name_count, &self.graph.blocks)?;
        let is_less = self.let_all_go(alloc, turns, &mut marks)?;
        Ok(is_less)
    }

    /// Writes go by passes, until one lets nothing go.
    fn settle(&self, alloc: Global, turns: &mut [Vec<u32>]) -> Result<(), AllocError>
        requires told { IsTold self.now }
        requires rows { HaveRows (graph_of self.now).blocks turns.old }
        requires goes { AllGo (assignments_of self.now) (graph_of self.now) (turn_of turns.old) }
        ensures { OnOk result (AreIdle (assignments_of self.now) (graph_of self.now) (is_going (turn_of turns.new))) }
    {
        let mut is_less = true;
        while is_less {
            is_less = self.pass(alloc, turns)?;
        }
        Ok(())
    }
}

/// The writes of a graph that go, in a unit of these assignments: those that are idle and to which paths come. For each
/// block it is told by how many instructions stand
/// behind a write; 0 where it stays.
pub fn idle_writes(
    alloc: Global,
    graph: &Graph,
    flow: &FlowTable,
    writes: &PlaceWrites,
    reached: &Marks,
) -> Result<Vec<Vec<u32>>, AllocError>
    requires few { length graph.now.blocks.items + 2 < 2 ^ 32 }
    requires led { AreLed (graph_view graph.now).blocks (bits_of reached.now 0) }
    requires named { AreNamed (graph_view graph.now).blocks graph.now.name_count }
    requires tells { Tells (graph_view graph.now) writes.now }
    ensures { IfOk result (λ turns.
        AreIdle flow.now.assignments.items (graph_view graph.now) (is_going (turn_of turns.items))) }
{
    let frees = FreeWrites {
        graph,
        writes,
        flow,
    };
    let may_go = frees.free_blocks(alloc, &graph.blocks)?;
    let count = graph.blocks.len() as u32;
    let idle = FreeGraph {
        graph,
        flow,
        reached,
        may_go,
        count,
    };
    let mut turns = all_stay(alloc, &graph.blocks)?;
    idle.settle(alloc, &mut turns)?;
    Ok(turns)
}
