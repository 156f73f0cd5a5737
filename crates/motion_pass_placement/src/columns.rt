//! The computations of a graph, 64 after the other.

ghost use Rattle.std.specs.Prelude.{◌≡◌, ◌<◌, ◌^◌, ℕ, Bool, false, IfOk, List, [], None, Some, length, map, slice_get, slice_index_or, true};
ghost use Rattle.graph_core.specs.Computations as spec-computation;
ghost use Rattle.graph_core.specs.Graphs as spec;
ghost use Rattle.graph_core.specs.Graphs.{block_view};
ghost use Rattle.motion_pass_points.specs.Columns.{AreNumbersAlong, number_at};
ghost use Rattle.motion_pass_points.specs.Numbers.{AreNumbers, views_of};
ghost use Rattle.motion_pass_problems.specs.Inner.{IsBlock, IsTreated, in_column};
ghost use Rattle.motion_pass_placement.specs.Fates.{fate_of};
ghost use Rattle.motion_pass_placement.specs.Columns.{AreFated, AreRows, HasFacts, row_of};

use crate::fates::{Fate, no_fates, put_late, put_used};
use graph_core::{Block, Graph};
use motion_pass_points::{Column, Computations, Local, is_flagged};
use motion_pass_problems::{Facts, Problems, word_of};
use std::alloc::{AllocError, Global};

/// A column of computations, and what is so of them at each block.
#[derive(Drop)]
pub struct Solved {
    pub column: Column,
    pub facts: Facts,
}

/// A graph whose computations are placed.
#[derive(Drop)]
pub struct Placing<'a> {
    pub alloc: Global,
    pub graph: &'a Graph,
    pub computations: &'a Computations,
    /// For each block and instruction the number of the computation that it does.
    pub numbers: &'a [Vec<Option<u32>>],
    pub reached: &'a [bool],
    /// The reached blocks in order, and against it.
    pub order: &'a [u32],
    pub back: &'a [u32],
}

/// The numbers of a row; none where there is no such row.
pub fn row_at(rows: &[Vec<Option<u32>>], number: usize) -> &[Option<u32>]
    ensures { result.now ≡ row_of rows.now number }
{
    match rows.get(number) {
        Some(row) => row.as_slice(),
        None => &[],
    }
}

/// Tells what is so of the computations of a column where a block does them.
fn put_fates(
    solved: &Solved,
    block: &Block,
    numbers: &[Option<u32>],
    number: usize,
    fates: &mut [Fate],
)
    requires { length fates.old ≡ length (block_view block.now).instructions }
    ensures size { length fates.new ≡ length fates.old }
    ensures told { (blocks : List spec.Block) (reached : ℕ → Bool) (k : ℕ) (e : spec-computation.Computation)
        → IsBlock blocks reached number (block_view block.now)
        → IsTreated solved.now.column (block_view block.now) numbers.now k e
        → HasFacts blocks reached e k solved.now.facts
        → AreFated blocks number (block_view block.now) numbers.now k e fates.new }
    ensures others { (index : ℕ) → in_column solved.now.column.index (number_at numbers.now index) ≡ None
        → fate_of fates.new index ≡ fate_of fates.old index }
{
    let past_start = word_of(&solved.facts.past_starts, number);
    put_late(&solved.column, block, numbers, past_start, fates);
    let used_end = word_of(&solved.facts.used_ends, number);
    put_used(&solved.column, block, numbers, used_end, fates);
}

impl Placing<'_> {
    ghost use Rattle.motion_pass_placement.specs.Columns.{AreAllFates, AreLocalsOf, AreRowFates, AreSizes, AreSolved, IsPlacing, IsSolved, blocks_in};

    /// What the blocks do to the computations of a column.
    fn locals(&self, column: &Column) -> Result<Vec<Local>, AllocError>
        requires { IsPlacing self.now }
        ensures { IfOk result (λ locals. AreLocalsOf self.now column.now locals.items) }
    {
        let mut locals = Vec::new(self.alloc);
        for number in 0..self.graph.blocks.len() {
            let block = &self.graph.blocks[number];
            let numbers = row_at(self.numbers, number);
            let local = column.local_of(block, numbers, self.computations);
            locals.push(local)?;
        }
        Ok(locals)
    }

    /// What is so of a column's computations at each block.
    fn solved(&self, index: u32) -> Result<Solved, AllocError>
        requires placing { IsPlacing self.now }
        requires index { index < 2 ^ 26 }
        ensures { IfOk result (λ solved. IsSolved self.now index solved) }
    {
        let column = Column::new(self.alloc, self.computations, index, self.graph.name_count)?;
        let locals = self.locals(&column)?;
        let problems = Problems {
            alloc: self.alloc,
            blocks: &self.graph.blocks,
            reached: self.reached,
            order: self.order,
            back: self.back,
            locals: &locals,
        };
        let facts = problems.solve()?;
        Ok(Solved { column, facts })
    }

    /// What is so of the computations of all columns.
    pub fn columns(&self) -> Result<Vec<Solved>, AllocError>
        requires { IsPlacing self.now }
        ensures { IfOk result (λ columns. AreSolved self.now columns.items) }
    {
        let mut columns = Vec::new(self.alloc);
        for index in 0..(self.computations.all.len() / 64 + 1) as u32 {
            let solved = self.solved(index)?;
            columns.push(solved)?;
        }
        Ok(columns)
    }

    /// What is so where a block does computations.
    fn row(&self, columns: &[Solved], number: usize) -> Result<Vec<Fate>, AllocError>
        requires placing { IsPlacing self.now }
        requires solved { AreSolved self.now columns.now }
        requires within { number < length self.now.graph.now.blocks.items }
        ensures told { IfOk result (λ fates. AreRowFates self.now number fates.items) }
        ensures size { IfOk result (λ fates.
            (b : spec.Block) → slice_get (blocks_in self.now) number ≡ Some b
            → length fates.items ≡ length b.instructions) }
    {
        let block = &self.graph.blocks[number];
        let numbers = row_at(self.numbers, number);
        let mut fates = no_fates(self.alloc, block.instructions.len())?;
        for index in 0..columns.len() {
            put_fates(&columns[index], block, numbers, number, &mut fates);
        }
        Ok(fates)
    }

    /// What is so where the blocks do computations.
    pub fn fates(&self, columns: &[Solved]) -> Result<Vec<Vec<Fate>>, AllocError>
        requires placing { IsPlacing self.now }
        requires solved { AreSolved self.now columns.now }
        ensures told { IfOk result (λ fates. AreAllFates self.now fates.items) }
        ensures sizes { IfOk result (λ fates. AreSizes (blocks_in self.now) fates.items) }
    {
        let mut fates = Vec::new(self.alloc);
        for number in 0..self.graph.blocks.len() {
            let row = self.row(columns, number)?;
            fates.push(row)?;
        }
        Ok(fates)
    }
}

/// The numbers of the computations that a block does, if it is flagged, and else none.
fn flagged_numbers(
    alloc: Global,
    block: &Block,
    flag: bool,
    computations: &Computations,
) -> Result<Vec<Option<u32>>, AllocError>
    ensures told { AreNumbers computations.now → flag ≡ true
        → IfOk result (λ numbers.
        AreNumbersAlong (views_of computations.now) (block_view block.now).instructions numbers.items) }
    ensures none { flag ≡ false → IfOk result (λ numbers. numbers.items ≡ []) }
{
    if flag {
        computations.numbers_along(alloc, block)
    } else {
        Ok(Vec::new(alloc))
    }
}

/// For each block that some path reaches, and each of its instructions, the number of the computation that it does.
pub fn numbers_of(
    alloc: Global,
    blocks: &[Block],
    reached: &[bool],
    computations: &Computations,
) -> Result<Vec<Vec<Option<u32>>>, AllocError>
    requires { AreNumbers computations.now }
    ensures told { IfOk result (λ rows.
        AreRows (map block_view blocks.now) (λ n. slice_index_or reached.now n false) (views_of computations.now)
        rows.items) }
{
    let mut all = Vec::new(alloc);
    for number in 0..blocks.len() {
        let block = &blocks[number];
        let flag = is_flagged(reached, number);
        let row = flagged_numbers(alloc, block, flag, computations)?;
        all.push(row)?;
    }
    Ok(all)
}
