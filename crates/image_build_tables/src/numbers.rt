//! Numbers of 32 bits.

ghost use Rattle.std.specs.Prelude.{◌≡◌, get_or, slice_set};
ghost use Rattle.image_build_tables.specs.Variables.{bounded_count};

/// A count as a number of 32 bits, the greatest where it is more.
pub fn number_of(count: usize) -> u32
    ensures { result ≡ bounded_count count }
{
    if count < 4294967295 {
        count as u32
    } else {
        4294967295
    }
}

/// The entry of this number; 0 where there is none.
pub fn entry(entries: &[u32], number: usize) -> u32
    ensures { result ≡ get_or entries.now number 0 }
{
    match entries.get(number) {
        Some(entry) => *entry,
        None => 0,
    }
}

/// Sets the entry of this number, if there is one.
pub fn put_entry(entries: &mut [u32], number: u32, value: u32)
    ensures { entries.new ≡ slice_set entries.old number value }
{
    let index = number as usize;
    if index < entries.len() {
        entries[index] = value;
    }
}
