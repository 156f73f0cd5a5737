//! Rows of bits of one width, that answer for any number.

ghost use Rattle.std.specs.Prelude.{◌≡◌, length};
ghost use Rattle.graph_paths.specs.Table.{AreWide};

use bit_rows::Rows;
use std::alloc::{AllocError, Global};

/// Rows of bits. What is outside is clear, and stays so.
#[derive(Drop)]
pub struct BitTable {
    rows: Rows,
    count: u32,
    width: u32,
    ghost each: { length rows ≡ count },
    ghost wide: { AreWide width rows },
}

impl BitTable {
    /// So many rows of this width, with all bits clear.
    pub fn new(alloc: Global, count: u32, width: u32) -> Result<BitTable, AllocError> {
        let rows = Rows::new(alloc, count, width)?;
        Ok(BitTable { rows, count, width })
    }

    /// Whether a bit is set.
    pub fn get(&self, row: u32, bit: u32) -> bool {
        row < self.count && bit < self.width && self.rows.get(row, bit)
    }

    /// Sets or clears a bit.
    pub fn put(&mut self, row: u32, bit: u32, value: bool) {
        if row < self.count && bit < self.width {
            if value {
                self.rows.set(row, bit);
            } else {
                self.rows.clear(row, bit);
            }
        }
    }
}
