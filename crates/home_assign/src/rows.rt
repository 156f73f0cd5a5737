//! Rows of bits that meet, bit by bit.

ghost use Rattle.std.specs.Prelude.{◌≡◌, ◌<◌, ◌↔◌, ℕ, false, length};
ghost use Rattle.bit_rows.specs.Grid.{is_set, met_bit, row_at};
ghost use Rattle.graph_solve.specs.Rows.{AreSameElsewhere};

use bit_rows::Rows;

/// A row becomes its union, or else its intersection, with another one. Tells whether it changed.
pub(crate) fn meet(rows: &mut Rows, from: u32, to: u32, unite: bool) -> bool
    requires from { from < length rows.old }
    requires to { to < length rows.old }
    requires width { length (row_at rows.old from) ≡ length (row_at rows.old to) }
    ensures elsewhere { AreSameElsewhere to rows.old rows.new }
    ensures here { (bit : ℕ) → is_set rows.new to bit
        ≡ met_bit unite (is_set rows.old from bit) (is_set rows.old to bit) }
    ensures changed { (result ≡ false) ↔ ((bit : ℕ) → is_set rows.new to bit ≡ is_set rows.old to bit) }
{
    rows.meet_into(from, to, unite)
}
