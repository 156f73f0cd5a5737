//! Rows of bits that a function of row and bit tells.

ghost use Rattle.std.specs.Prelude.{◌≡◌, ◌<◌, ℕ, Bool, true, false, IfOk, length, slice_set, map, replicate};
ghost use Rattle.std.specs.List.{range_with_len};
ghost use Rattle.bit_rows.specs.Grid.{is_set, row_at};
ghost use Rattle.graph_solve.specs.Rows.{table};

use bit_rows::Rows;
use std::alloc::{AllocError, Global};

/// Which bits of rows are set.
pub trait Bits {
    /// Whether a bit of a row is set.
    ghost bits: { Self → ℕ → ℕ → Bool };

    /// The rows and bits of which is told.
    ghost within: { Self → ℕ → ℕ → Type 0 };

    /// Whether a bit of a row is set.
    fn bit(&self, row: u32, bit: u32) -> bool
        requires { within self.now row bit }
        ensures { result ≡ bits self.now row bit };
}

/// Sets the bits of a clear row that are told.
fn put_row<B: Bits>(bits: &B, row: u32, width: u32, rows: &mut Rows)
    requires row { row < length rows.old }
    requires clear { row_at rows.old row ≡ replicate width false }
    requires within { (bit : ℕ) → bit < width → B.within bits.now row bit }
    ensures { rows.new ≡ slice_set rows.old row (map (B.bits bits.now row) (range_with_len 0 width)) }
{
    for bit in 0..width {
        if bits.bit(row, bit) {
            rows.set(row, bit);
        }
    }
}

/// So many rows with the bits that are told.
pub fn table_of<B: Bits>(
    alloc: Global,
    bits: &B,
    count: u32,
    width: u32,
) -> Result<Rows, AllocError>
    requires within { (row bit : ℕ) → row < count → bit < width → B.within bits.now row bit }
    ensures { IfOk result (λ made. made ≡ table count width (B.bits bits.now)) }
{
    let mut rows = Rows::new(alloc, count, width)?;
    for row in 0..count {
        put_row(bits, row, width, &mut rows);
    }
    Ok(rows)
}
