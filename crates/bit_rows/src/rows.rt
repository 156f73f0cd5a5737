//! Rows of bits.

ghost use Rattle.std.specs.Prelude.{◌≡◌, ℕ, ◌<◌, ◌≤◌, ◌+◌, ◌*◌, ◌==◌, ◌↔◌, false, true, length, IfOk, replicate, slice_set};
ghost use Rattle.std.specs.Int.{bit_at};
ghost use Rattle.bit_rows.specs.Grid.{is_set, met, passed, row_at, with_bit, with_word};

use crate::words::{add_words, copy_words, meet_words, pass_words};
use std::alloc::{AllocError, Global};
use std::marker::Model;

/// Rows of bits, all of one width. A row is a set of the numbers below the width.
#[derive(Drop)]
pub struct Rows {
    words: Vec<u64>,
    /// Words of a row.
    stride: usize,
    width: u32,
    rows: u32,
}

impl Model for Rows {
    ghost use Rattle.std.specs.Prelude.{Bool, List};
    ghost use Rattle.bit_rows.specs.Words.{AreRows, rows_in};

    ghost Value = { List (List Bool) };

    ghost view = { λ all. rows_in all.words.items all.stride all.width all.rows };

    ghost invariant = { λ all. AreRows all.words.items all.stride all.width all.rows };
}

impl Rows {
    /// So many rows of this width, with all bits clear.
    pub fn new(alloc: Global, rows: u32, width: u32) -> Result<Rows, AllocError>
        ensures { IfOk result (λ made. made ≡ replicate rows (replicate width false)) }
    {
        let stride = (width as usize + 63) / 64;
        let words = vec![in alloc; 0u64; rows as usize * stride]?;
        Ok(Rows {
            words,
            stride,
            width,
            rows,
        })
    }

    /// Sets a bit.
    pub fn set(&mut self, row: u32, bit: u32)
        requires row { row < length self.old }
        requires bit { bit < length (row_at self.old row) }
        ensures { self.new ≡ with_bit self.old row bit true }
    {
        let word = row as usize * self.stride + bit as usize / 64;
        self.words[word] |= 1u64 << (bit % 64);
    }

    /// Clears a bit.
    pub fn clear(&mut self, row: u32, bit: u32)
        requires row { row < length self.old }
        requires bit { bit < length (row_at self.old row) }
        ensures { self.new ≡ with_bit self.old row bit false }
    {
        let word = row as usize * self.stride + bit as usize / 64;
        self.words[word] &= !(1u64 << (bit % 64));
    }

    /// Whether a bit is set.
    pub fn get(&self, row: u32, bit: u32) -> bool
        requires row { row < length self.now }
        requires bit { bit < length (row_at self.now row) }
        ensures { result ≡ is_set self.now row bit }
    {
        let word = self.words[row as usize * self.stride + bit as usize / 64];
        (word >> (bit % 64)) & 1 == 1
    }

    /// Makes row `to` the union, without `unite` the intersection, of the two rows. Tells whether it changed.
    pub fn meet_into(&mut self, from: u32, to: u32, unite: bool) -> bool
        requires from { from < length self.old }
        requires to { to < length self.old }
        ensures met { self.new ≡ slice_set self.old to (met unite (row_at self.old from) (row_at self.old to)) }
        ensures changed { (result ≡ false) ↔ (self.new ≡ self.old) }
    {
        let from = from as usize * self.stride;
        let to = to as usize * self.stride;
        meet_words(&mut self.words, from, to, self.stride, unite)
    }

    /// Makes row `to` what this row of `kept` keeps of row `from`, with the bits of this row of `written`.
    pub fn pass_into(&mut self, from: u32, to: u32, kept: &Rows, written: &Rows, row: u32)
        requires from { from < length self.old }
        requires to { to < length self.old }
        requires kept { row < length kept.now }
        requires written { row < length written.now }
        requires kept_width { length (row_at kept.now row) ≡ length (row_at self.old from) }
        requires written_width { length (row_at written.now row) ≡ length (row_at self.old from) }
        ensures { self.new ≡ slice_set self.old to
            (passed (row_at self.old from) (row_at kept.now row) (row_at written.now row)) }
    {
        let from = from as usize * self.stride;
        let to = to as usize * self.stride;
        let row = row as usize * self.stride;
        pass_words(
            &mut self.words,
            from,
            to,
            &kept.words,
            &written.words,
            row,
            self.stride,
        );
    }

    /// Gives row `to` what a row of another table has. Tells whether it changed.
    pub fn add_from(&mut self, to: u32, other: &Rows, row: u32) -> bool
        requires to { to < length self.old }
        requires row { row < length other.now }
        requires width { length (row_at other.now row) ≡ length (row_at self.old to) }
        ensures met { self.new ≡ slice_set self.old to (met true (row_at other.now row) (row_at self.old to)) }
        ensures changed { (result ≡ false) ↔ (self.new ≡ self.old) }
    {
        if self.stride == 1 {
            let before = self.words[to as usize];
            let after = other.words[row as usize] | before;
            self.words[to as usize] = after;
            return after != before;
        }
        let to = to as usize * self.stride;
        let row = row as usize * self.stride;
        add_words(&mut self.words, to, &other.words, row, self.stride)
    }

    /// Makes row `to` a row of another table.
    pub fn copy_from(&mut self, to: u32, other: &Rows, row: u32)
        requires to { to < length self.old }
        requires row { row < length other.now }
        requires width { length (row_at other.now row) ≡ length (row_at self.old to) }
        ensures { self.new ≡ slice_set self.old to (row_at other.now row) }
    {
        if self.stride == 1 {
            self.words[to as usize] = other.words[row as usize];
            return;
        }
        let to = to as usize * self.stride;
        let row = row as usize * self.stride;
        copy_words(&mut self.words, to, &other.words, row, self.stride);
    }

    /// The 64 bits of a row that begin with bit 64 * `index`; those outside are clear.
    pub fn word(&self, row: u32, index: u32) -> u64
        requires row { row < length self.now }
        requires index { 64 * index < length (row_at self.now row) }
        ensures { (k : ℕ) → k < 64 → (bit_at result k == 1) ≡ is_set self.now row (64 * index + k) }
    {
        self.words[row as usize * self.stride + index as usize]
    }

    /// Makes the 64 bits of a row that begin with bit 64 * `index` those of a word.
    pub fn put_word(&mut self, row: u32, index: u32, word: u64)
        requires row { row < length self.old }
        requires index { 64 * index + 64 ≤ length (row_at self.old row) }
        ensures { self.new ≡ slice_set self.old row (with_word (row_at self.old row) index word) }
    {
        self.words[row as usize * self.stride + index as usize] = word;
    }
}
