//! Where copies are missing, block by block.

ghost use Rattle.std.specs.Prelude.{◌≡◌, ℕ, suc, ◌+◌, ◌<◌, ◌^◌, ◌||◌, Some, IfOk, OnOk, if◌then◌else◌, length, map, option_map, slice_get, true, false};
ghost use Rattle.graph_core.specs.declared.name.Name as declared-name;
ghost use Rattle.graph_core.specs.Graphs.{block_view};
ghost use Rattle.copy_pass_rule.specs.declared.copies.CopyAt as declared-copy;
ghost use Rattle.copy_pass_rule.specs.Flow.{AreFound, is_written, line_of, lines_of, missing_along, missing_behind, stands_at};
ghost use Rattle.graph_paths.specs.Flood.{AreSameBut};
ghost use Rattle.graph_paths.specs.PathMarksTable.{bits_of};

use crate::copies::Copies;
use graph_core::{Block, Instr, Name};
use graph_paths::{Marks, Transfer, reached_blocks, settle};
use std::alloc::{AllocError, Global};

/// Goes in a row over a write: the copies of which the name is a part are missing behind it.
fn write(copies: &Copies<'_>, marks: &mut Marks, row: u32, target: Option<Name>)
    requires row { row < marks.old.count }
    requires width { marks.old.width ≡ length copies.now.all.now + 1 }
    ensures others { AreSameBut row (bits_of marks.old) (bits_of marks.new) }
    ensures led { bits_of marks.new row 0 ≡ bits_of marks.old row 0 }
    ensures walk { (k : ℕ) (c : declared-copy.CopyAt) → slice_get copies.now.all.now k ≡ Some c
        → bits_of marks.new row (suc k) ≡
        (is_written c.target (option_map (λ (n : declared-name.Name). n.0) target) || (is_written c.source
        (option_map (λ (n : declared-name.Name). n.0) target) || bits_of marks.old row (suc k))) }
    ensures same_count { marks.new.count ≡ marks.old.count }
    ensures same_width { marks.new.width ≡ marks.old.width }
{
    if let Some(name) = target {
        if name.0 < copies.scalars {
            let _is_new = marks.add_from(row, &copies.parts, name.0);
        }
    }
}

/// Goes in a row over the copy that stands at a point, if one does: it is not missing behind it.
fn make(copies: &Copies<'_>, marks: &mut Marks, row: u32, block: u32, left: usize)
    requires row { row < marks.old.count }
    requires width { marks.old.width ≡ length copies.now.all.now + 1 }
    requires few { length copies.now.all.now + 1 < 2 ^ 32 }
    ensures others { AreSameBut row (bits_of marks.old) (bits_of marks.new) }
    ensures led { bits_of marks.new row 0 ≡ bits_of marks.old row 0 }
    ensures walk { (k : ℕ) (c : declared-copy.CopyAt) → slice_get copies.now.all.now k ≡ Some c
        → bits_of marks.new row (suc k) ≡ (if stands_at c block left then false else bits_of marks.old row (suc k)) }
    ensures same_count { marks.new.count ≡ marks.old.count }
    ensures same_width { marks.new.width ≡ marks.old.width }
{
    if let Some(copy) = copies.at(block, left) {
        marks.put(row, copy as u32 + 1, false);
    }
}

/// Goes in a row over an instruction.
pub fn step(
    copies: &Copies<'_>,
    marks: &mut Marks,
    row: u32,
    block: u32,
    left: usize,
    target: Option<Name>,
)
    requires row { row < marks.old.count }
    requires width { marks.old.width ≡ length copies.now.all.now + 1 }
    requires narrow { length copies.now.all.now + 1 < 2 ^ 32 }
    ensures others { AreSameBut row (bits_of marks.old) (bits_of marks.new) }
    ensures led { bits_of marks.new row 0 ≡ bits_of marks.old row 0 }
    ensures walk { (k : ℕ) (c : declared-copy.CopyAt) → slice_get copies.now.all.now k ≡ Some c
        → bits_of marks.new row (suc k) ≡ missing_behind c block left
        (option_map (λ (n : declared-name.Name). n.0) target) (bits_of marks.old row (suc k)) }
    ensures same_count { marks.new.count ≡ marks.old.count }
    ensures same_width { marks.new.width ≡ marks.old.width }
{
    write(copies, marks, row, target);
    make(copies, marks, row, block, left);
}

/// Goes in a row over the instructions of a block.
fn walk(copies: &Copies<'_>, marks: &mut Marks, row: u32, number: u32, block: &Block)
    requires row { row < marks.old.count }
    requires width { marks.old.width ≡ length copies.now.all.now + 1 }
    requires narrow { length copies.now.all.now + 1 < 2 ^ 32 }
    ensures others { AreSameBut row (bits_of marks.old) (bits_of marks.new) }
    ensures led { bits_of marks.new row 0 ≡ bits_of marks.old row 0 }
    ensures walk { (k : ℕ) (c : declared-copy.CopyAt) → slice_get copies.now.all.now k ≡ Some c
        → bits_of marks.new row (suc k) ≡ missing_along c number (line_of (block_view block.now)).writes
        (bits_of marks.old row (suc k)) }
    ensures same_count { marks.new.count ≡ marks.old.count }
    ensures same_width { marks.new.width ≡ marks.old.width }
{
    let mut ahead: &[Instr] = &block.instructions;
    while let [instruction, rest @ ..] = ahead {
        let target = instruction.target();
        step(copies, marks, row, number, rest.len(), target);
        ahead = rest;
    }
}

/// The copies that are missing, as facts that flow as execution goes.
#[derive(Drop)]
struct Missing<'a> {
    copies: &'a Copies<'a>,
    blocks: &'a [Block],
    reached: &'a Marks,
    ghost narrow: { length copies.now.all.now + 1 < 2 ^ 32 },
}

impl Transfer for Missing<'_> {
    ghost use Rattle.copy_pass_rule.specs.Rows.{going_missing};

    ghost course = { λ m. going_missing (map block_view m.blocks.now) m.copies.now.all.now (bits_of m.reached.now 0) };

    fn forward(&self) -> bool {
        true
    }

    fn is_open(&self, block: u32) -> bool {
        self.reached.get(0, block)
    }

    fn pass(&self, block: u32, rows: &mut Marks, row: u32) -> Result<(), AllocError> {
        let block_of = &self.blocks[block as usize];
        walk(self.copies, rows, row, block, block_of);
        Ok(())
    }
}

/// All is missing at the entry, to which a way leads.
fn put_entry(width: u32, marks: &mut Marks)
    requires count { 0 < marks.old.count }
    requires width { width ≡ marks.old.width }
    ensures count { marks.new.count ≡ marks.old.count }
    ensures width { marks.new.width ≡ marks.old.width }
    ensures others { AreSameBut 0 (bits_of marks.old) (bits_of marks.new) }
    ensures entry { (bit : ℕ) → bit < width → bits_of marks.new 0 bit ≡ true }
{
    for bit in 0..width {
        marks.put(0, bit, true);
    }
}

/// For each block the copies that are missing at its start on some path, and whether some path leads to it.
pub fn find_missing(alloc: Global, copies: &Copies<'_>, all: &[Block]) -> Result<Marks, AllocError>
    requires narrow { length copies.now.all.now + 1 < 2 ^ 32 }
    requires few { length all.now < 2 ^ 32 }
    requires some { 0 < length all.now }
    ensures count { IfOk result (λ marks. marks.count ≡ length all.now) }
    ensures width { IfOk result (λ marks. marks.width ≡ length copies.now.all.now + 1) }
    ensures found { IfOk result
        (λ marks. AreFound (lines_of (map block_view all.now)) copies.now.all.now (bits_of marks)) }
{
    let reached = reached_blocks(alloc, all)?;
    let count = all.len() as u32;
    let width = copies.all.len() as u32 + 1;
    let mut starts = Marks::new(alloc, count, width)?;
    let mut ends = Marks::new(alloc, count, width)?;
    put_entry(width, &mut starts);
    let missing = Missing {
        copies,
        blocks: all,
        reached: &reached,
    };
    settle(&missing, all, &[], &mut starts, &mut ends)?;
    Ok(starts)
}
