//! Tables of numbers, with what they hold.

ghost use Rattle.std.specs.Prelude.{◌≡◌, min, slice_index, slice_set};

/// The number at an index, 0 behind the end.
pub fn at(table: &[u32], index: u32) -> u32
    ensures { result ≡ slice_index table.now index }
{
    match table.get(index as usize) {
        Some(number) => *number,
        None => 0,
    }
}

/// Sets the number at an index, if the table has it.
#[tactic(auto, using(std::proofs::lemmas::List::set_past))]
pub fn put(table: &mut Vec<u32>, index: u32, number: u32)
    ensures { table.new.items ≡ slice_set table.old.items index number }
{
    let index = index as usize;
    if index < table.len() {
        table[index] = number;
    }
}

/// How many there are, as far as 32 bits can count.
pub fn count(length: usize) -> u32
    ensures { result ≡ min length 4294967295 }
{
    length.min(4294967295) as u32
}
