//! Facts that flow along ways through a graph, 64 at once: where some way brings them.

ghost use Rattle.std.specs.Prelude.{◌≡◌, ℕ, IfOk, OnOk, List, ◌≤◌, ◌<◌, ◌^◌, ◌&&◌, ◌||◌, false, length, map, slice_index_or, true};
ghost use Rattle.graph_paths.specs.Flood.{AreSameBut};
ghost use Rattle.graph_paths.specs.PathMarksTable.{bits_of};
ghost use Rattle.motion_pass_points.specs.Words.{has};
ghost use Rattle.motion_pass_problems.specs.Flowing.{is_at};
ghost use Rattle.motion_pass_problems.specs.Problems.{passage_of};

use graph_core::Block;
use graph_paths::{Marks, Transfer, settle};
use motion_pass_points::{both, either, is_flagged};
use std::alloc::{AllocError, Global};

/// What a block does to facts that come to it: it makes some, and lets some pass.
#[derive(Clone, Copy)]
pub struct Passage {
    pub made: u64,
    pub passed: u64,
}

/// Of what is no block.
const NO_PASSAGE: Passage = Passage { made: 0, passed: 0 };

/// How facts flow through a graph: as execution goes, or against it.
#[derive(Drop)]
pub struct Flow<'a> {
    pub blocks: &'a [Block],
    /// Which blocks some path reaches.
    pub reached: &'a [bool],
    pub passages: &'a [Passage],
    pub forward: bool,
}

/// What leaves a block, to which these facts come.
pub fn leaving(passage: Passage, comes: u64) -> u64
    ensures { (k : ℕ) → has result k ≡ (has passage.made k || (has comes k && has passage.passed k)) }
{
    let kept = both(comes, passage.passed);
    either(passage.made, kept)
}

/// The passage of the block of this number.
pub(crate) fn passage_at(passages: &[Passage], number: usize) -> Passage
    ensures { result ≡ passage_of passages.now number }
{
    match passages.get(number) {
        Some(passage) => *passage,
        None => NO_PASSAGE,
    }
}

/// For each word a row of its bits.
fn rows_of(alloc: Global, words: &[u64]) -> Result<Marks, AllocError>
    requires few { length words.now < 2 ^ 32 }
    ensures count { IfOk result (λ rows. rows.count ≡ length words.now) }
    ensures width { IfOk result (λ rows. rows.width ≡ 64) }
    ensures same { IfOk result (λ rows. (n k : ℕ) → k < 64 → bits_of rows n k ≡ is_at words.now k n) }
{
    let count = words.len() as u32;
    let mut rows = Marks::new(alloc, count, 64)?;
    for number in 0..count {
        rows.put_word(number, 0, words[number as usize]);
    }
    Ok(rows)
}

/// The words of so many rows.
fn words_of(alloc: Global, rows: &Marks, count: u32) -> Result<Vec<u64>, AllocError>
    requires count { count ≤ rows.now.count }
    requires width { rows.now.width ≡ 64 }
    ensures size { IfOk result (λ words. length words.items ≡ count) }
    ensures same { IfOk result (λ words. (n k : ℕ) → n < count → k < 64
        → is_at words.items k n ≡ bits_of rows.now n k) }
{
    let mut words = Vec::new(alloc);
    for number in 0..count {
        let word = rows.word(number, 0);
        words.push(word)?;
    }
    Ok(words)
}

impl Transfer for Flow<'_> {
    ghost use Rattle.motion_pass_problems.specs.Flowing.{course_of};

    ghost course = { λ flow. course_of flow };

    fn forward(&self) -> bool {
        self.forward
    }

    fn is_open(&self, block: u32) -> bool {
        is_flagged(self.reached, block as usize)
    }

    fn pass(&self, block: u32, rows: &mut Marks, row: u32) -> Result<(), AllocError> {
        let passage = passage_at(self.passages, block as usize);
        let comes = rows.word(row, 0);
        let leaves = leaving(passage, comes);
        rows.put_word(row, 0, leaves);
        Ok(())
    }
}

impl Flow<'_> {
    ghost use Rattle.motion_pass_problems.specs.Flowing.{AreBroughtThere};

    /// To each block just the facts that some way brings to it, where these begin. The order in which blocks are
    /// visited decides how long that takes, and nothing else.
    pub fn solve(
        &self,
        alloc: Global,
        begins: &[u64],
        order: &[u32],
    ) -> Result<Vec<u64>, AllocError>
        requires few { length self.now.blocks.now < 2 ^ 32 }
        requires begins { length begins.now ≡ length self.now.blocks.now }
        requires passages { length self.now.passages.now ≤ length self.now.blocks.now }
        ensures size { IfOk result (λ words. length words.items ≡ length begins.now) }
        ensures exact { IfOk result (λ words. AreBroughtThere self.now begins.now words.items) }
    {
        let count = self.blocks.len() as u32;
        let mut comes = rows_of(alloc, begins)?;
        let mut leaves = Marks::new(alloc, count, 64)?;
        settle(self, self.blocks, order, &mut comes, &mut leaves)?;
        let words = words_of(alloc, &comes, count)?;
        Ok(words)
    }
}
