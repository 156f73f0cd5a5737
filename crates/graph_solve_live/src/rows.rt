//! The names that are read later, in rows of bits.

ghost use Rattle.std.specs.Prelude.{◌≡◌, ℕ, ◌*◌, ◌<◌, ◌≤◌, IfOk, length};
ghost use Rattle.bit_rows.specs.Grid.{is_set, row_at};
ghost use Rattle.graph_paths.specs.PathMarksTable.{bits_of};
ghost use Rattle.graph_solve.specs.Rows.{AreSameElsewhere, set_at, sets_at};

use bit_rows::Rows;
use graph_paths::Marks;
use graph_solve_problem::Facts;
use std::alloc::{AllocError, Global};

/// For each block the names that are live at its start, and those that are at its end, in rows of bits.
#[derive(Drop)]
pub struct LiveRows {
    pub(crate) starts: Marks,
    pub(crate) ends: Marks,
    pub(crate) blocks: u32,
    pub(crate) width: u32,
    ghost starts_each: { starts.count ≡ blocks },
    ghost ends_each: { ends.count ≡ blocks },
    ghost starts_wide: { starts.width ≡ width },
    ghost ends_wide: { ends.width ≡ width },
}

/// Makes so many words of a row those of a row of another table.
fn put_words(marks: &Marks, from: u32, words: u32, rows: &mut Rows, row: u32)
    requires from { from < marks.now.count }
    requires row { row < length rows.old }
    requires width { length (row_at rows.old row) ≡ marks.now.width }
    requires words { 64 * words ≤ marks.now.width }
    ensures elsewhere { AreSameElsewhere row rows.old rows.new }
    ensures here { (bit : ℕ) → bit < 64 * words → is_set rows.new row bit ≡ bits_of marks.now from bit }
{
    for index in 0..words {
        let word = marks.word(from, index);
        rows.put_word(row, index, word);
    }
}

/// Makes a bit of a row that of a row of another table.
fn put_bit(marks: &Marks, from: u32, rows: &mut Rows, row: u32, bit: u32)
    requires row { row < length rows.old }
    requires bit { bit < length (row_at rows.old row) }
    ensures elsewhere { AreSameElsewhere row rows.old rows.new }
    ensures here { is_set rows.new row bit ≡ bits_of marks.now from bit }
    ensures others { (other : ℕ) → (other ≡ bit → ⊥) → is_set rows.new row other ≡ is_set rows.old row other }
{
    if marks.get(from, bit) {
        rows.set(row, bit);
    } else {
        rows.clear(row, bit);
    }
}

/// Makes the bits of a row from one on those of a row of another table.
fn put_bits(marks: &Marks, from: u32, first: u32, width: u32, rows: &mut Rows, row: u32)
    requires row { row < length rows.old }
    requires width { length (row_at rows.old row) ≡ width }
    ensures elsewhere { AreSameElsewhere row rows.old rows.new }
    ensures before { (bit : ℕ) → bit < first → is_set rows.new row bit ≡ is_set rows.old row bit }
    ensures here { (bit : ℕ) → first ≤ bit → bit < width → is_set rows.new row bit ≡ bits_of marks.now from bit }
{
    for bit in first..width {
        put_bit(marks, from, rows, row, bit);
    }
}

/// Makes a row that of another table.
fn put_row(marks: &Marks, from: u32, width: u32, rows: &mut Rows, row: u32)
    requires from { from < marks.now.count }
    requires row { row < length rows.old }
    requires width { length (row_at rows.old row) ≡ width }
    requires wide { marks.now.width ≡ width }
    ensures elsewhere { AreSameElsewhere row rows.old rows.new }
    ensures here { set_at rows.new row ≡ set_at marks.now.rows from }
{
    let words = width / 64;
    put_words(marks, from, words, rows, row);
    put_bits(marks, from, 64 * words, width, rows, row);
}

/// The numbers whose bits are set in a row.
fn facts_of(alloc: Global, marks: &Marks, row: u32, width: u32) -> Result<Facts, AllocError>
    requires row { row < marks.now.count }
    requires width { marks.now.width ≡ width }
    ensures { IfOk result (λ facts. facts ≡ set_at marks.now.rows row) }
{
    let mut facts = Facts::new(alloc);
    for bit in 0..width {
        if marks.get(row, bit) {
            facts.add(bit)?;
        }
    }
    Ok(facts)
}

/// The sets of all rows.
pub(crate) fn sets_of(
    alloc: Global,
    marks: &Marks,
    count: u32,
    width: u32,
) -> Result<Vec<Facts>, AllocError>
    requires count { marks.now.count ≡ count }
    requires width { marks.now.width ≡ width }
    ensures { IfOk result (λ sets. sets.items ≡ sets_at marks.now.rows 0 count) }
{
    let mut sets = Vec::new(alloc);
    for row in 0..count {
        sets.push(facts_of(alloc, marks, row, width)?)?;
    }
    Ok(sets)
}

impl LiveRows {
    ghost use Rattle.std.specs.Prelude.{Some, slice_get};
    ghost use Rattle.graph_solve_live.specs.LiveRows.{ends_of, starts_of};

    /// Makes a row of others the names that are live at the start of a block.
    pub fn put_start(&self, block: u32, rows: &mut Rows, row: u32)
        requires block { block < self.now.blocks }
        requires row { row < length rows.old }
        requires width { length (row_at rows.old row) ≡ self.now.width }
        ensures elsewhere { AreSameElsewhere row rows.old rows.new }
        ensures here { slice_get (starts_of self.now) block ≡ Some (set_at rows.new row) }
    {
        put_row(&self.starts, block, self.width, rows, row);
    }

    /// Makes a row of others the names that are live at the end of a block.
    pub fn put_end(&self, block: u32, rows: &mut Rows, row: u32)
        requires block { block < self.now.blocks }
        requires row { row < length rows.old }
        requires width { length (row_at rows.old row) ≡ self.now.width }
        ensures elsewhere { AreSameElsewhere row rows.old rows.new }
        ensures here { slice_get (ends_of self.now) block ≡ Some (set_at rows.new row) }
    {
        put_row(&self.ends, block, self.width, rows, row);
    }
}
