//! The four problems of data flow of lazy code motion, each for 64 computations at once.

ghost use Rattle.std.specs.Prelude.{◌≡◌, ℕ, ◌<◌, ◌&&◌, ◌||◌, Bool, IfOk, ◌^◌, ◌≤◌, Some, length, slice_get, slice_index_or, true};
ghost use Rattle.graph_core.specs.Graphs as spec;
ghost use Rattle.graph_core.specs.Graphs.{block_view, end_view};
ghost use Rattle.motion_pass_problems.specs.Facts.{is_return};
ghost use Rattle.motion_pass_problems.specs.Flowing.{is_at};
ghost use Rattle.motion_pass_points.specs.Words.{has};
ghost use Rattle.motion_pass_problems.specs.Problems.{AreLeaving, IsPastPassage, IsUnhadPassage, IsUnsafePassage, IsUsedPassage, local_of};

use crate::flow::passage_at;
use crate::{Flow, Passage, leaving};
use graph_core::{Block, End};
use motion_pass_points::{Local, NOTHING, both, either, without};
use std::alloc::{AllocError, Global};

/// What is so of 64 computations at each block, in a word for each.
#[derive(Drop)]
pub struct Facts {
    /// From the block's start some way comes to a write of an operand, or to an end of the function, before the
    /// computation: it is not down-safe there.
    pub unsafe_starts: Vec<u64>,
    /// It can't be delayed to the block's start.
    pub past_starts: Vec<u64>,
    /// It can't be delayed to the edges from the block's end, but where it is not down-safe.
    pub past_ends: Vec<u64>,
    /// What is computed before the block's start is used from there on: a computation comes that is not the latest
    /// point itself.
    pub used_starts: Vec<u64>,
    /// The same of the block's end.
    pub used_ends: Vec<u64>,
}

/// A word for the start and one for the end of each block.
#[derive(Drop)]
struct BlockWords {
    starts: Vec<u64>,
    ends: Vec<u64>,
}

/// The word of this number; no facts where there is none.
pub fn word_of(words: &[u64], number: usize) -> u64
    ensures { result ≡ slice_index_or words.now number 0 }
{
    match words.get(number) {
        Some(word) => *word,
        None => 0,
    }
}

fn local_at(locals: &[Local], number: usize) -> Local
    ensures { result ≡ local_of locals.now number }
{
    match locals.get(number) {
        Some(local) => *local,
        None => NOTHING,
    }
}

/// What some way comes to before the computation: a write of an operand, in this block or behind it.
fn unsafe_passage(local: Local) -> Passage
    ensures { IsUnsafePassage local result }
{
    let made = without(local.written, local.first);
    let passed = without(u64::MAX, local.first);
    Passage { made, passed }
}

/// Not down-safe at the block's end, and no down-safe point was met since an operand was written.
fn unhad_passage(local: Local, unsafe_end: u64) -> Passage
    ensures { IsUnhadPassage local unsafe_end result }
{
    let passed = without(unsafe_end, local.last);
    let made = both(passed, local.written);
    Passage { made, passed }
}

/// Computed and not earliest at the end, or past and not earliest.
fn past_passage(local: Local, unsafe_end: u64, unhad_end: u64) -> Passage
    ensures { IsPastPassage local unsafe_end unhad_end result }
{
    let open = both(local.written, unsafe_end);
    let done = either(local.last, open);
    let kept = without(u64::MAX, local.written);
    let made = without(done, unhad_end);
    let passed = without(kept, unhad_end);
    Passage { made, passed }
}

/// A computation that is not the latest point itself comes first, in this block or behind it.
fn used_passage(local: Local, past_start: u64, past_end: u64) -> Passage
    ensures { IsUsedPassage local past_start past_end result }
{
    let made = both(local.first, past_start);
    let passed = without(past_end, local.done);
    Passage { made, passed }
}

/// What begins at the end of a block: where it leads to none, nothing is down-safe.
fn unsafe_begin(end: &End) -> u64
    ensures { (k : ℕ) → has result k ≡ is_return (end_view end.now) }
{
    match end {
        End::Return(_) => u64::MAX,
        End::Jump(_) => 0,
        End::Branch { .. } => 0,
    }
}

/// What leaves the blocks of these passages, to which such words come.
fn leaving_all(alloc: Global, passages: &[Passage], comes: &[u64]) -> Result<Vec<u64>, AllocError>
    ensures size { IfOk result (λ words. length words.items ≡ length passages.now) }
    ensures each { IfOk result (λ words. AreLeaving passages.now comes.now words.items) }
{
    let mut words = Vec::new(alloc);
    for number in 0..passages.len() {
        let passage = passage_at(passages, number);
        let come = word_of(comes, number);
        let leaves = leaving(passage, come);
        words.push(leaves)?;
    }
    Ok(words)
}

/// What two lists of words have both.
fn both_all(alloc: Global, some: &[u64], other: &[u64]) -> Result<Vec<u64>, AllocError>
    ensures size { IfOk result (λ words. length words.items ≡ length some.now) }
    ensures each { IfOk result
        (λ words. (n k : ℕ) → is_at words.items k n ≡ (is_at some.now k n && is_at other.now k n)) }
{
    let mut words = Vec::new(alloc);
    for number in 0..some.len() {
        let one = word_of(some, number);
        let another = word_of(other, number);
        let word = both(one, another);
        words.push(word)?;
    }
    Ok(words)
}

/// All at the first of so many blocks, and nothing at the others.
pub fn at_entry(alloc: Global, count: usize) -> Result<Vec<u64>, AllocError>
    ensures size { IfOk result (λ words. length words.items ≡ count) }
    ensures first { IfOk result (λ words. (k : ℕ) → 0 < count → is_at words.items k 0 ≡ true) }
    ensures only { IfOk result (λ words. (k n : ℕ) → is_at words.items k n ≡ true → n ≡ 0) }
{
    let mut words = vec![in alloc; 0u64; count]?;
    if count == 0 {
        return Ok(words);
    }
    words[0] = u64::MAX;
    Ok(words)
}

/// The four problems over a graph, for a column of computations.
#[derive(Drop)]
pub struct Problems<'a> {
    pub alloc: Global,
    pub blocks: &'a [Block],
    pub reached: &'a [bool],
    /// The reached blocks in order, and against it.
    pub order: &'a [u32],
    pub back: &'a [u32],
    /// What each block does to the computations.
    pub locals: &'a [Local],
}

impl Problems<'_> {
    ghost use Rattle.motion_pass_problems.specs.Problems.{AreBroughtBy};
    ghost use Rattle.motion_pass_problems.specs.MotionProblemsProblems.{ArePastPassages, AreUnhadPassages, AreUnsafePassages, AreUsedPassages, TellFacts, TellPast, TellUnhadEnds, TellUnsafeEnds, TellUnsafeStarts, TellUsed, blocks_of, reached_of};

    /// What some way brings to blocks through these passages, where this begins.
    fn brought(
        &self,
        passages: &[Passage],
        forward: bool,
        begins: &[u64],
    ) -> Result<Vec<u64>, AllocError>
        requires few { length (blocks_of self.now) < 2 ^ 32 }
        requires begins { length begins.now ≡ length (blocks_of self.now) }
        requires passages { length passages.now ≡ length (blocks_of self.now) }
        ensures size { IfOk result (λ words. length words.items ≡ length (blocks_of self.now)) }
        ensures exact { IfOk result (λ words.
            AreBroughtBy (blocks_of self.now) (reached_of self.now) forward passages.now begins.now words.items) }
    {
        let flow = Flow {
            blocks: self.blocks,
            reached: self.reached,
            passages,
            forward,
        };
        let order = if forward { self.order } else { self.back };
        let words = flow.solve(self.alloc, begins, order)?;
        Ok(words)
    }

    /// For each block what is not down-safe.
    fn unsafe_passages(&self) -> Result<Vec<Passage>, AllocError>
        ensures { IfOk result (λ passages. AreUnsafePassages self.now passages.items) }
    {
        let mut passages = Vec::new(self.alloc);
        for number in 0..self.blocks.len() {
            let local = local_at(self.locals, number);
            let passage = unsafe_passage(local);
            passages.push(passage)?;
        }
        Ok(passages)
    }

    /// For each block what is not down-safe since it leads to none.
    fn unsafe_begins(&self) -> Result<Vec<u64>, AllocError>
        ensures size { IfOk result (λ words. length words.items ≡ length (blocks_of self.now)) }
        ensures each { IfOk result (λ words.
            (k n : ℕ) (b : spec.Block) → slice_get (blocks_of self.now) n ≡ Some b
            → is_at words.items k n ≡ is_return b.end) }
    {
        let mut words = Vec::new(self.alloc);
        for number in 0..self.blocks.len() {
            let block = &self.blocks[number];
            let word = unsafe_begin(&block.end);
            words.push(word)?;
        }
        Ok(words)
    }

    /// At the end of each block those that are not down-safe.
    fn unsafe_ends(&self, passages: &[Passage]) -> Result<Vec<u64>, AllocError>
        requires few { length (blocks_of self.now) < 2 ^ 32 }
        requires passages { AreUnsafePassages self.now passages.now }
        ensures { IfOk result (λ words. TellUnsafeEnds self.now words.items) }
    {
        let begins = self.unsafe_begins()?;
        let words = self.brought(passages, false, &begins)?;
        Ok(words)
    }

    /// For each block what is neither down-safe nor up-safe.
    fn unhad_passages(&self, unsafe_ends: &[u64]) -> Result<Vec<Passage>, AllocError>
        ensures { IfOk result (λ passages. AreUnhadPassages self.now unsafe_ends.now passages.items) }
    {
        let mut passages = Vec::new(self.alloc);
        for number in 0..self.blocks.len() {
            let local = local_at(self.locals, number);
            let unsafe_end = word_of(unsafe_ends, number);
            let passage = unhad_passage(local, unsafe_end);
            passages.push(passage)?;
        }
        Ok(passages)
    }

    /// At the end of each block those that are not down-safe there, and were nowhere on some path since an operand was
    /// written.
    fn unhad_ends(&self, unsafe_ends: &[u64]) -> Result<Vec<u64>, AllocError>
        requires few { length (blocks_of self.now) < 2 ^ 32 }
        requires open { TellUnsafeEnds self.now unsafe_ends.now }
        ensures { IfOk result (λ words. TellUnhadEnds self.now words.items) }
    {
        let passages = self.unhad_passages(unsafe_ends)?;
        let begins = at_entry(self.alloc, self.blocks.len())?;
        let starts = self.brought(&passages, true, &begins)?;
        let ends = leaving_all(self.alloc, &passages, &starts)?;
        Ok(ends)
    }

    /// For each block what can't be delayed further.
    fn past_passages(
        &self,
        unsafe_ends: &[u64],
        unhad_ends: &[u64],
    ) -> Result<Vec<Passage>, AllocError>
        ensures { IfOk result (λ passages. ArePastPassages self.now unsafe_ends.now unhad_ends.now passages.items) }
    {
        let mut passages = Vec::new(self.alloc);
        for number in 0..self.blocks.len() {
            let local = local_at(self.locals, number);
            let unsafe_end = word_of(unsafe_ends, number);
            let unhad_end = word_of(unhad_ends, number);
            let passage = past_passage(local, unsafe_end, unhad_end);
            passages.push(passage)?;
        }
        Ok(passages)
    }

    /// At the start of each block, and then on the edges from it, those that can't be delayed so far.
    fn past(
        &self,
        unsafe_ends: &[u64],
        unsafe_starts: &[u64],
        unhad_ends: &[u64],
    ) -> Result<BlockWords, AllocError>
        requires few { length (blocks_of self.now) < 2 ^ 32 }
        requires size { length unsafe_starts.now ≡ length (blocks_of self.now) }
        requires open { TellUnsafeEnds self.now unsafe_ends.now }
        requires starts { TellUnsafeStarts self.now unsafe_starts.now }
        requires had { TellUnhadEnds self.now unhad_ends.now }
        ensures { IfOk result (λ words.
            TellPast self.now unsafe_starts.now unhad_ends.now words.starts.items words.ends.items) }
    {
        let passages = self.past_passages(unsafe_ends, unhad_ends)?;
        let starts = self.brought(&passages, true, unsafe_starts)?;
        let ends = leaving_all(self.alloc, &passages, &starts)?;
        Ok(BlockWords { starts, ends })
    }

    /// For each block what is used.
    fn used_passages(
        &self,
        past_starts: &[u64],
        past_ends: &[u64],
    ) -> Result<Vec<Passage>, AllocError>
        ensures { IfOk result (λ passages. AreUsedPassages self.now past_starts.now past_ends.now passages.items) }
    {
        let mut passages = Vec::new(self.alloc);
        for number in 0..self.blocks.len() {
            let local = local_at(self.locals, number);
            let past_start = word_of(past_starts, number);
            let past_end = word_of(past_ends, number);
            let passage = used_passage(local, past_start, past_end);
            passages.push(passage)?;
        }
        Ok(passages)
    }

    /// At the start of each block, and then at its end, those whose values are used from there on.
    fn used(&self, past_starts: &[u64], past_ends: &[u64]) -> Result<BlockWords, AllocError>
        requires few { length (blocks_of self.now) < 2 ^ 32 }
        ensures { IfOk result
            (λ words. TellUsed self.now past_starts.now past_ends.now words.starts.items words.ends.items) }
    {
        let passages = self.used_passages(past_starts, past_ends)?;
        let none = vec![in self.alloc; 0u64; self.blocks.len()]?;
        let behind = self.brought(&passages, false, &none)?;
        let starts = leaving_all(self.alloc, &passages, &behind)?;
        let ends = both_all(self.alloc, &behind, past_ends)?;
        Ok(BlockWords { starts, ends })
    }

    /// What is so at each block.
    pub fn solve(&self) -> Result<Facts, AllocError>
        requires few { length (blocks_of self.now) < 2 ^ 32 }
        ensures { IfOk result (λ facts. TellFacts self.now facts) }
    {
        let open = self.unsafe_passages()?;
        let unsafe_ends = self.unsafe_ends(&open)?;
        let unsafe_starts = leaving_all(self.alloc, &open, &unsafe_ends)?;
        let unhad_ends = self.unhad_ends(&unsafe_ends)?;
        let past = self.past(&unsafe_ends, &unsafe_starts, &unhad_ends)?;
        let used = self.used(&past.starts, &past.ends)?;
        Ok(Facts {
            unsafe_starts,
            past_starts: past.starts,
            past_ends: past.ends,
            used_starts: used.starts,
            used_ends: used.ends,
        })
    }
}
