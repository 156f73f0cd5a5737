//! Rows of bits that answer for any number.

ghost use Rattle.std.specs.Prelude.{◌≡◌, ◌≢◌, ℕ, ◌+◌, ◌*◌, ◌/◌, ◌<◌, ◌≤◌, ◌==◌, ◌||◌, ◌&&◌, IfOk, false, length, true};
ghost use Rattle.std.specs.Int.{bit_at};
ghost use Rattle.graph_paths.specs.Table.{AreWide};

use bit_rows::Rows;
use std::alloc::{AllocError, Global};

/// Rows of bits. What is outside is clear.
#[derive(Drop)]
pub struct Marks {
    rows: Rows,
    count: u32,
    width: u32,
    ghost each: { length rows ≡ count },
    ghost wide: { AreWide width rows },
}

impl Marks {
    ghost use Rattle.graph_paths.specs.PathMarksTable.{bits_of, told};

    /// So many rows of this width, with all bits clear.
    pub fn new(alloc: Global, count: u32, width: u32) -> Result<Marks, AllocError>
        ensures clear { IfOk result (λ made. (row bit : ℕ) → bits_of made row bit ≡ false) }
        ensures count { IfOk result (λ made. made.count ≡ count) }
        ensures width { IfOk result (λ made. made.width ≡ width) }
    {
        let rows = Rows::new(alloc, count, width)?;
        Ok(Marks { rows, count, width })
    }

    /// Whether a bit is set.
    pub fn get(&self, row: u32, bit: u32) -> bool
        ensures { result ≡ bits_of self.now row bit }
    {
        row < self.count && bit < self.width && self.rows.get(row, bit)
    }

    /// Sets or clears a bit.
    pub fn put(&mut self, row: u32, bit: u32, value: bool)
        requires row { row < self.old.count }
        requires bit { bit < self.old.width }
        ensures there { bits_of self.new row bit ≡ value }
        ensures rows { (other some : ℕ) → other ≢ row → bits_of self.new other some ≡ bits_of self.old other some }
        ensures bits { (some : ℕ) → some ≢ bit → bits_of self.new row some ≡ bits_of self.old row some }
        ensures count { self.new.count ≡ self.old.count }
        ensures width { self.new.width ≡ self.old.width }
    {
        if value {
            self.rows.set(row, bit);
        } else {
            self.rows.clear(row, bit);
        }
    }

    /// Makes row `to` the union of the two rows.
    pub fn unite(&mut self, from: u32, to: u32)
        requires from { from < self.old.count }
        requires to { to < self.old.count }
        ensures there { (bit : ℕ) → bits_of self.new to bit ≡ (bits_of self.old from bit || bits_of self.old to bit) }
        ensures rows { (other bit : ℕ) → other ≢ to → bits_of self.new other bit ≡ bits_of self.old other bit }
        ensures count { self.new.count ≡ self.old.count }
        ensures width { self.new.width ≡ self.old.width }
    {
        let _is_new = self.rows.meet_into(from, to, true);
    }

    /// Makes row `to` what both rows have.
    pub fn keep(&mut self, from: u32, to: u32)
        requires from { from < self.old.count }
        requires to { to < self.old.count }
        ensures there { (bit : ℕ) → bits_of self.new to bit ≡ (bits_of self.old from bit && bits_of self.old to bit) }
        ensures rows { (other bit : ℕ) → other ≢ to → bits_of self.new other bit ≡ bits_of self.old other bit }
        ensures count { self.new.count ≡ self.old.count }
        ensures width { self.new.width ≡ self.old.width }
    {
        let _is_new = self.rows.meet_into(from, to, false);
    }

    /// Gives row `to` what a row of another table has. Tells whether that is new.
    pub fn add_from(&mut self, to: u32, other: &Marks, row: u32) -> bool
        requires to { to < self.old.count }
        requires row { row < other.now.count }
        requires widths { other.now.width ≡ self.old.width }
        ensures there { (bit : ℕ) → bits_of self.new to bit ≡ (bits_of other.now row bit || bits_of self.old to bit) }
        ensures rows { (other bit : ℕ) → other ≢ to → bits_of self.new other bit ≡ bits_of self.old other bit }
        ensures quiet { result ≡ false → (row bit : ℕ) → bits_of self.new row bit ≡ bits_of self.old row bit }
        ensures least { told self.old ≤ told self.new }
        ensures more { result ≡ true → told self.old < told self.new }
        ensures count { self.new.count ≡ self.old.count }
        ensures width { self.new.width ≡ self.old.width }
    {
        let is_new = self.rows.add_from(to, &other.rows, row);
        is_new
    }

    /// Makes row `to` a row of another table.
    pub fn copy_from(&mut self, to: u32, other: &Marks, row: u32)
        requires to { to < self.old.count }
        requires row { row < other.now.count }
        requires widths { other.now.width ≡ self.old.width }
        ensures there { (bit : ℕ) → bits_of self.new to bit ≡ bits_of other.now row bit }
        ensures rows { (other bit : ℕ) → other ≢ to → bits_of self.new other bit ≡ bits_of self.old other bit }
        ensures count { self.new.count ≡ self.old.count }
        ensures width { self.new.width ≡ self.old.width }
    {
        self.rows.copy_from(to, &other.rows, row);
    }

    /// The 64 bits of a row that begin with bit 64 * `index`; those outside are clear.
    pub fn word(&self, row: u32, index: u32) -> u64
        requires row { row < self.now.count }
        requires index { 64 * index < self.now.width }
        ensures { (k : ℕ) → k < 64 → (bit_at result k == 1) ≡ bits_of self.now row (64 * index + k) }
    {
        self.rows.word(row, index)
    }

    /// Makes the 64 bits of a row that begin with bit 64 * `index` those of a word.
    pub fn put_word(&mut self, row: u32, index: u32, word: u64)
        requires row { row < self.old.count }
        requires index { 64 * index + 64 ≤ self.old.width }
        ensures there { (k : ℕ) → k < 64 → bits_of self.new row (64 * index + k) ≡ (bit_at word k == 1) }
        ensures bits { (bit : ℕ) → bit / 64 ≢ index → bits_of self.new row bit ≡ bits_of self.old row bit }
        ensures rows { (other bit : ℕ) → other ≢ row → bits_of self.new other bit ≡ bits_of self.old other bit }
        ensures count { self.new.count ≡ self.old.count }
        ensures width { self.new.width ≡ self.old.width }
    {
        self.rows.put_word(row, index, word);
    }
}
