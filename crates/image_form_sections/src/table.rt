//! A section of rows of numbers, read where it lies.

ghost use Rattle.std.specs.Prelude.{◌≡◌, ◌+◌, ◌*◌, ◌<◌, ◌≤◌, ◌^◌, length};
ghost use Rattle.image_form_sections.specs.Sections.{cell, number_at, number_rows_at};

use byteorder::{ByteOrder, LittleEndian};

/// So many rows of so many numbers of 32 bits, little endian.
#[derive(Clone, Copy)]
pub struct Table<'a> {
    bytes: &'a [u8],
    width: usize,
    count: usize,
    ghost inside: { 4 * width * count ≤ length bytes.now },
    ghost few: { count < 2 ^ 32 },
}

impl<'a> Table<'a> {
    ghost use Rattle.image_form_sections.specs.Layouts.{rows_in};

    /// The rows at the front of the bytes.
    pub fn new(bytes: &'a [u8], width: usize, count: usize) -> Table<'a>
        requires few { count < 2 ^ 32 }
        requires inside { 4 * width * count ≤ length bytes.now }
        ensures { rows_in result ≡ number_rows_at width count bytes.now }
    {
        Table {
            bytes,
            width,
            count,
        }
    }

    /// How many rows there are.
    pub fn len(&self) -> usize
        ensures len { result ≡ length (rows_in self.now) }
        ensures few { result < 2 ^ 32 }
    {
        self.count
    }

    /// A number of a row, 0 where there is none.
    pub fn number(&self, row: usize, field: usize) -> u32
        ensures { result ≡ cell (rows_in self.now) row field }
    {
        if row < self.count && field < self.width {
            number_at(self.bytes, 4 * (self.width * row + field))
        } else {
            0
        }
    }
}

/// The number whose four bytes begin at a byte.
#[tactic(auto, unfolding(crate::specs::Sections::number_at))]
pub fn number_at(bytes: &[u8], at: usize) -> u32
    requires { at + 4 ≤ length bytes.now }
    ensures { result ≡ number_at bytes.now at }
{
    LittleEndian::read_u32(&bytes[at..])
}
