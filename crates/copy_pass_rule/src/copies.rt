//! Copies by their numbers.

ghost use Rattle.std.specs.Prelude.{◌≡◌, ◌≢◌, ◌↔◌, ℕ, ◌+◌, ◌<◌, ◌^◌, Some, None, IfOk, OnOk, IfSome, MatchOption, length, slice_get, slice_index_or, true, false};
ghost use Rattle.copy_pass_rule.specs.declared.copies.CopyAt as declared-copy;
ghost use Rattle.copy_pass_rule.specs.Flow.{stands_at};
ghost use Rattle.copy_pass_rule.specs.Found.{AreApart, AreNumerable, AreWithin};
ghost use Rattle.copy_pass_rule.specs.Numbered.{AreNumbered, AreOfScalars, IsOnlyOne, number_at};
ghost use Rattle.copy_pass_rule.specs.Rows.{AreParts};

use graph_paths::Marks;
use std::alloc::{AllocError, Global};

/// A copy of one scalar to another: its block, how many instructions stand behind it there, and the two scalars.
#[derive(Clone, Copy, PartialEq, Eq)]
pub struct CopyAt {
    pub block: u32,
    pub left: usize,
    pub target: u32,
    pub source: u32,
}

/// The number, from 1 on, of the copy that stands in a block with so many instructions behind it; 0 where there is
/// none.
fn number_of(numbers: &[Vec<u32>], block: u32, left: usize) -> u32
    ensures { result ≡ number_at numbers.now block left }
{
    match numbers.get(block as usize) {
        Some(row) => match row.get(left) {
            Some(number) => *number,
            None => 0,
        },
        None => 0,
    }
}

/// Whether these are the numbers of the copies.
fn are_numbered(all: &[CopyAt], numbers: &[Vec<u32>]) -> bool
    ensures { (result ≡ true) ↔ AreNumbered all.now numbers.now }
{
    for (k, copy) in all.iter().enumerate() {
        if number_of(numbers, copy.block, copy.left) as usize != k + 1 {
            return false;
        }
    }
    true
}

/// Whether the copies are of scalars below this number.
fn are_of_scalars(all: &[CopyAt], scalars: u32) -> bool
    ensures { (result ≡ true) ↔ AreOfScalars all.now scalars }
{
    for copy in all {
        if copy.target >= scalars || copy.source >= scalars {
            return false;
        }
    }
    true
}

/// Puts a number at an index of a row, which grows by zeros as far as that.
fn put_in(row: &mut Vec<u32>, index: usize, number: u32) -> Result<(), AllocError>
    ensures there { OnOk result (slice_index_or row.new.items index 0 ≡ number) }
    ensures others { OnOk result ((other : ℕ) → other ≢ index
        → slice_index_or row.new.items other 0 ≡ slice_index_or row.old.items other 0) }
{
    while row.len() <= index {
        row.push(0)?;
    }
    row[index] = number;
    Ok(())
}

/// Puts the number of a copy where it stands.
fn put_number(numbers: &mut [Vec<u32>], copy: CopyAt, number: u32) -> Result<(), AllocError>
    requires block { copy.block < length numbers.old }
    ensures count { OnOk result (length numbers.new ≡ length numbers.old) }
    ensures there { OnOk result (number_at numbers.new copy.block copy.left ≡ number) }
    ensures others { OnOk result ((block left : ℕ) → (block ≡ copy.block → left ≡ copy.left → ⊥)
        → number_at numbers.new block left ≡ number_at numbers.old block left) }
{
    put_in(&mut numbers[copy.block as usize], copy.left, number)
}

/// So many blocks without numbers.
fn no_numbers(alloc: Global, blocks: usize) -> Result<Vec<Vec<u32>>, AllocError>
    ensures { IfOk result (λ numbers. length numbers.items ≡ blocks) }
{
    let mut numbers = Vec::new(alloc);
    while numbers.len() < blocks {
        numbers.push(Vec::new(alloc))?;
    }
    Ok(numbers)
}

/// The numbers of copies in so many blocks.
fn numbers_of(alloc: Global, all: &[CopyAt], blocks: usize) -> Result<Vec<Vec<u32>>, AllocError>
    requires narrow { length all.now + 1 < 2 ^ 32 }
    ensures { IfOk result (λ numbers. AreApart all.now → AreWithin all.now blocks → AreNumbered all.now numbers.items) }
{
    let mut numbers = no_numbers(alloc, blocks)?;
    for (k, copy) in all.iter().enumerate() {
        if (copy.block as usize) < blocks {
            put_number(&mut numbers, *copy, k as u32 + 1)?;
        }
    }
    Ok(numbers)
}

/// In the row of each scalar the copies of which it is a part.
fn parts_of(alloc: Global, all: &[CopyAt], scalars: u32) -> Result<Marks, AllocError>
    requires narrow { length all.now + 1 < 2 ^ 32 }
    requires of_scalars { AreOfScalars all.now scalars }
    ensures { IfOk result (λ parts. AreParts all.now scalars parts) }
{
    let mut parts = Marks::new(alloc, scalars, all.len() as u32 + 1)?;
    for (k, copy) in all.iter().enumerate() {
        parts.put(copy.target, k as u32 + 1, true);
        parts.put(copy.source, k as u32 + 1, true);
    }
    Ok(parts)
}

/// Copies by their numbers.
#[derive(Drop)]
pub struct Copies<'a> {
    pub all: &'a [CopyAt],
    numbers: Vec<Vec<u32>>,
    pub scalars: u32,
    /// For each scalar the copies of which it is a part.
    pub parts: Marks,
    ghost numbered: { AreNumbered all.now numbers.items },
    ghost of_scalars: { AreOfScalars all.now scalars },
    ghost are_parts: { AreParts all.now scalars parts },
}

impl<'a> Copies<'a> {
    /// The copies by their numbers, where no two stand at one point and they are of scalars below this number.
    pub fn new(
        alloc: Global,
        all: &'a [CopyAt],
        blocks: usize,
        scalars: u32,
    ) -> Result<Option<Copies<'a>>, AllocError>
        requires narrow { length all.now + 1 < 2 ^ 32 }
        ensures all { IfOk result (λ o. IfSome o (λ copies. copies.all.now ≡ all.now)) }
        ensures scalars { IfOk result (λ o. IfSome o (λ copies. copies.scalars ≡ scalars)) }
        ensures none { IfOk result (λ o. o ≡ None → AreNumerable all.now blocks scalars → ⊥) }
    {
        let numbers = numbers_of(alloc, all, blocks)?;
        if are_numbered(all, &numbers) && are_of_scalars(all, scalars) {
            Ok(Some(Copies {
                all,
                numbers,
                scalars,
                parts: parts_of(alloc, all, scalars)?,
            }))
        } else {
            Ok(None)
        }
    }

    /// The number of the copy that stands in a block with so many instructions behind it.
    pub fn at(&self, block: u32, left: usize) -> Option<usize>
        ensures { MatchOption result
            ((k : ℕ) (c : declared-copy.CopyAt) → slice_get self.now.all.now k ≡ Some c → stands_at c block left
            ≡ false)
            (λ k. IsOnlyOne self.now.all.now block left k) }
    {
        let number = number_of(&self.numbers, block, left) as usize;
        if number == 0 || number > self.all.len() {
            return None;
        }
        let copy = self.all[number - 1];
        if copy.block == block && copy.left == left {
            Some(number - 1)
        } else {
            None
        }
    }
}
