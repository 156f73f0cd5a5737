//! Rows of bits as sets.

ghost use Rattle.std.specs.Prelude.{◌≡◌, ℕ, ◌+◌, ◌≤◌, ◌<◌, ◌^◌, IfOk, length};
ghost use Rattle.bit_rows.specs.Grid.{row_at};
ghost use Rattle.graph_solve.specs.Rows.{set_at, sets_at};

use bit_rows::Rows;
use graph_solve_problem::Facts;
use std::alloc::{AllocError, Global};

/// The numbers whose bits are set in a row.
fn facts_of(alloc: Global, rows: &Rows, row: u32, width: u32) -> Result<Facts, AllocError>
    requires row { row < length rows.now }
    requires width { length (row_at rows.now row) ≡ width }
    ensures { IfOk result (λ facts. facts ≡ set_at rows.now row) }
{
    let mut facts = Facts::new(alloc);
    for bit in 0..width {
        if rows.get(row, bit) {
            facts.add(bit)?;
        }
    }
    Ok(facts)
}

/// The sets of so many rows, from a row on.
pub(crate) fn sets_of(
    alloc: Global,
    rows: &Rows,
    from: u32,
    count: u32,
    width: u32,
) -> Result<Vec<Facts>, AllocError>
    requires rows { from + count ≤ length rows.now }
    requires few { length rows.now < 2 ^ 32 }
    requires widths { (row : ℕ) → row < length rows.now → length (row_at rows.now row) ≡ width }
    ensures { IfOk result (λ sets. sets.items ≡ sets_at rows.now from count) }
{
    let mut sets = Vec::new(alloc);
    for row in 0..count {
        sets.push(facts_of(alloc, rows, from + row, width)?)?;
    }
    Ok(sets)
}
