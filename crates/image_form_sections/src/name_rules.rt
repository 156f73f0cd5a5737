//! The rule of names.

ghost use Rattle.std.specs.Prelude.{◌≡◌, ◌≤◌, IfErr, IfNone, IfOk, IfSome, length};
ghost use Rattle.image_form_sections.specs.Layouts.{rows_in, sections_in};
ghost use Rattle.image_form_sections.specs.Letters.{begins_identifier, is_identifier_byte, is_lower_letter};
ghost use Rattle.image_form_sections.specs.TestsOfNames.{byte_test, byte_tests, first_misfit, first_unfit, name_tests, table_tests};

use crate::layout::Layout;
use crate::table::Table;

/// What the bytes of a name may be.
#[derive(Clone, Copy)]
pub enum NameKind {
    /// An identifier of C.
    Identifier,
    /// Lower-case letters.
    Letters,
}

/// The first byte of the section of names that no name may have there, or that is missing or left over.
pub fn first_misfit(layout: &Layout<'_>) -> Option<usize>
    ensures first { let s = sections_in layout.now in result ≡ first_misfit (name_tests s) s.names }
    ensures there { IfSome result (λ at. at ≤ length layout.now.names.now) }
{
    let names = layout.names;
    let functions = match names_end(&layout.functions, NameKind::Identifier, names) {
        Ok(end) => end,
        Err(at) => return Some(at),
    };
    let (_, names) = names.split_at(functions);
    let variables = match names_end(&layout.variables, NameKind::Identifier, names) {
        Ok(end) => end,
        Err(at) => return Some(functions + at),
    };
    let (_, names) = names.split_at(variables);
    let passes = match names_end(&layout.changes, NameKind::Letters, names) {
        Ok(end) => end,
        Err(at) => return Some(functions + variables + at),
    };
    if passes == names.len() {
        None
    } else {
        Some(functions + variables + passes)
    }
}

/// Where the names of a table's rows end, or the first byte that does not fit.
fn names_end(table: &Table<'_>, kind: NameKind, bytes: &[u8]) -> Result<usize, usize>
    ensures fit { let tests = table_tests kind (rows_in table.now) in
        IfOk result (λ end. (first_unfit tests bytes.now ≡ None) × (end ≡ length tests)) }
    ensures inside { IfOk result (λ end. end ≤ length bytes.now) }
    ensures unfit { IfErr result (λ at. first_unfit (table_tests kind (rows_in table.now)) bytes.now ≡ Some at) }
    ensures there { IfErr result (λ at. at ≤ length bytes.now) }
{
    let mut end = 0;
    for row in 0..table.len() {
        let length = table.number(row, 0) as usize;
        let (_, rest) = bytes.split_at(end);
        if let Some(index) = first_unfit(kind, length, rest) {
            return Err(end + index);
        }
        end += length;
    }
    Ok(end)
}

/// The first byte that a name of so many bytes may not have, or that is missing.
fn first_unfit(kind: NameKind, count: usize, bytes: &[u8]) -> Option<usize>
    ensures unfit { result ≡ first_unfit (byte_tests kind count) bytes.now }
    ensures there { IfSome result (λ index. index ≤ length bytes.now) }
    ensures long { IfNone result (count ≤ length bytes.now) }
{
    for index in 0..count {
        if index >= bytes.len() || !fits(kind, index, bytes[index]) {
            return Some(index);
        }
    }
    None
}

/// Whether a byte may stand at an index of a name.
fn fits(kind: NameKind, index: usize, byte: u8) -> bool
    ensures { result ≡ byte_test kind index byte }
{
    match kind {
        NameKind::Identifier if index == 0 => begins_identifier(byte),
        NameKind::Identifier => is_identifier_byte(byte),
        NameKind::Letters => is_lower_letter(byte),
    }
}

fn is_lower_letter(byte: u8) -> bool
    ensures { result ≡ is_lower_letter byte }
{
    b'a' <= byte && byte <= b'z'
}

fn begins_identifier(byte: u8) -> bool
    ensures { result ≡ begins_identifier byte }
{
    is_lower_letter(byte) || (b'A' <= byte && byte <= b'Z') || byte == b'_'
}

fn is_identifier_byte(byte: u8) -> bool
    ensures { result ≡ is_identifier_byte byte }
{
    begins_identifier(byte) || (b'0' <= byte && byte <= b'9')
}
