//! Names, found by the lengths that the rows of tables tell.

ghost use Rattle.std.specs.Prelude.{◌≡◌, drop, map, sum, take};
ghost use Rattle.image_form.specs.Decoding.{only_number};
ghost use Rattle.image_form_sections.specs.Layouts.{rows_in};
ghost use Rattle.image_form.specs.Names.{name_at};

use image_form_sections::Table;

/// The name of a row, in bytes that begin with the name of the table's first row.
pub fn name_in<'a>(table: &Table<'_>, row: usize, bytes: &'a [u8]) -> &'a [u8]
    ensures { result.now ≡ name_at (map only_number (rows_in table.now)) row bytes.now }
{
    let rest = behind_names(table, row, bytes);
    front(rest, table.number(row, 0) as usize)
}

/// The bytes behind the names of the first rows.
pub fn behind_names<'a>(table: &Table<'_>, rows: usize, bytes: &'a [u8]) -> &'a [u8]
    ensures { result.now ≡ drop (sum (take rows (map only_number (rows_in table.now)))) bytes.now }
{
    let mut rest = bytes;
    for row in 0..rows {
        rest = behind(rest, table.number(row, 0) as usize);
    }
    rest
}

/// The first bytes, or all of them.
fn front(bytes: &[u8], count: usize) -> &[u8]
    ensures { result.now ≡ take count bytes.now }
{
    if count <= bytes.len() {
        &bytes[..count]
    } else {
        bytes
    }
}

/// The bytes behind the first ones, or none.
fn behind(bytes: &[u8], count: usize) -> &[u8]
    ensures { result.now ≡ drop count bytes.now }
{
    if count <= bytes.len() {
        &bytes[count..]
    } else {
        &[]
    }
}
