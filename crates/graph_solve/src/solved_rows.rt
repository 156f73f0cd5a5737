//! A solution in rows of bits.

ghost use Rattle.std.specs.Prelude.{◌≡◌, ℕ, ◌+◌, ◌<◌, ◌^◌, length};
ghost use Rattle.bit_rows.specs.Grid.{row_at};

use crate::sets::sets_of;
use bit_rows::Rows;
use graph_solve_problem::Solution;
use std::alloc::{AllocError, Global};

/// Rows of bits that solve a problem: for each block what comes to it along paths, and then for each what it makes of
/// it.
#[derive(Drop)]
pub struct SolvedRows {
    pub(crate) rows: Rows,
    pub(crate) blocks: u32,
    pub(crate) width: u32,
    pub(crate) forward: bool,
    ghost each: { length rows ≡ blocks + blocks },
    ghost few: { blocks + blocks < 2 ^ 32 },
    ghost wide: { (row : ℕ) → row < length rows → length (row_at rows row) ≡ width },
}

impl SolvedRows {
    ghost use Rattle.std.specs.FinSet.{contains};
    ghost use Rattle.std.specs.Prelude.{IfOk, Some, slice_get, slice_set};
    ghost use Rattle.graph_solve_problem.specs.Numbers.{Numbers};
    ghost use Rattle.graph_solve.specs.Rows.{AreSameElsewhere, set_at};
    ghost use Rattle.graph_solve.specs.Solved.{ends_of, starts_of};

    /// The same as sets.
    pub fn solution(&self, alloc: Global) -> Result<Solution, AllocError>
        ensures starts { IfOk result (λ solution. solution.starts.items ≡ starts_of self.now) }
        ensures ends { IfOk result (λ solution. solution.ends.items ≡ ends_of self.now) }
    {
        let met = sets_of(alloc, &self.rows, 0, self.blocks, self.width)?;
        let made = sets_of(alloc, &self.rows, self.blocks, self.blocks, self.width)?;
        if self.forward {
            Ok(Solution {
                starts: met,
                ends: made,
            })
        } else {
            Ok(Solution {
                starts: made,
                ends: met,
            })
        }
    }

    /// Whether a fact is at the start of a block.
    pub fn is_at_start(&self, block: u32, fact: u32) -> bool
        requires block { block < self.now.blocks }
        requires fact { fact < self.now.width }
        ensures { (facts : Numbers) → slice_get (starts_of self.now) block ≡ Some facts → result ≡ contains facts fact }
    {
        if self.forward {
            self.rows.get(block, fact)
        } else {
            self.rows.get(self.blocks + block, fact)
        }
    }

    /// Whether a fact is at the end of a block.
    pub fn is_at_end(&self, block: u32, fact: u32) -> bool
        requires block { block < self.now.blocks }
        requires fact { fact < self.now.width }
        ensures { (facts : Numbers) → slice_get (ends_of self.now) block ≡ Some facts → result ≡ contains facts fact }
    {
        if self.forward {
            self.rows.get(self.blocks + block, fact)
        } else {
            self.rows.get(block, fact)
        }
    }

    /// The row of the facts at the start of a block.
    fn start_row(&self, block: u32) -> u32
        requires { block < self.now.blocks }
        ensures within { result < length self.now.rows }
        ensures at { slice_get (starts_of self.now) block ≡ Some (set_at self.now.rows result) }
    {
        if self.forward {
            block
        } else {
            self.blocks + block
        }
    }

    /// The row of the facts at the end of a block.
    fn end_row(&self, block: u32) -> u32
        requires { block < self.now.blocks }
        ensures within { result < length self.now.rows }
        ensures at { slice_get (ends_of self.now) block ≡ Some (set_at self.now.rows result) }
    {
        if self.forward {
            self.blocks + block
        } else {
            block
        }
    }

    /// Makes a row of others one of these rows.
    fn put_row(&self, from: u32, rows: &mut Rows, row: u32)
        requires from { from < length self.now.rows }
        requires row { row < length rows.old }
        requires width { length (row_at rows.old row) ≡ self.now.width }
        ensures { rows.new ≡ slice_set rows.old row (row_at self.now.rows from) }
    {
        rows.pass_into(row, row, &self.rows, &self.rows, from);
    }

    /// Makes a row of others the facts at the start of a block.
    pub fn put_start(&self, block: u32, rows: &mut Rows, row: u32)
        requires block { block < self.now.blocks }
        requires row { row < length rows.old }
        requires width { length (row_at rows.old row) ≡ self.now.width }
        ensures elsewhere { AreSameElsewhere row rows.old rows.new }
        ensures here { slice_get (starts_of self.now) block ≡ Some (set_at rows.new row) }
    {
        self.put_row(self.start_row(block), rows, row);
    }

    /// Makes a row of others the facts at the end of a block.
    pub fn put_end(&self, block: u32, rows: &mut Rows, row: u32)
        requires block { block < self.now.blocks }
        requires row { row < length rows.old }
        requires width { length (row_at rows.old row) ≡ self.now.width }
        ensures elsewhere { AreSameElsewhere row rows.old rows.new }
        ensures here { slice_get (ends_of self.now) block ≡ Some (set_at rows.new row) }
    {
        self.put_row(self.end_row(block), rows, row);
    }
}
