//! Lists that answer for any number.

ghost use Rattle.std.specs.Prelude.{◌≡◌, [], false, map, replicate, IfOk, get_or, slice_index_or, slice_set};
ghost use Rattle.graph_paths.specs.Lists.{list_of};

use std::alloc::{AllocError, Global};

/// The flag of this number; false where there is none.
pub fn flag(flags: &[bool], number: u32) -> bool
    ensures { result ≡ slice_index_or flags.now number false }
{
    match flags.get(number as usize) {
        Some(flag) => *flag,
        None => false,
    }
}

/// Sets the flag of this number, if there is one.
pub fn put_flag(flags: &mut [bool], number: u32, value: bool)
    ensures { flags.new ≡ slice_set flags.old number value }
{
    let index = number as usize;
    if index < flags.len() {
        flags[index] = value;
    }
}

/// The entry of this number; 0 where there is none.
pub fn entry(entries: &[u32], number: u32) -> u32
    ensures { result ≡ get_or entries.now number 0 }
{
    match entries.get(number as usize) {
        Some(entry) => *entry,
        None => 0,
    }
}

/// Sets the entry of this number, if there is one.
pub fn put_entry(entries: &mut [u32], number: u32, value: u32)
    ensures { entries.new ≡ slice_set entries.old number value }
{
    let index = number as usize;
    if index < entries.len() {
        entries[index] = value;
    }
}

/// The list of this number; no entries where there is none.
pub fn list(lists: &[Vec<u32>], number: u32) -> &[u32]
    ensures { result.now ≡ list_of lists.now number }
{
    match lists.get(number as usize) {
        Some(found) => found.as_slice(),
        None => &[],
    }
}

/// So many lists without entries.
pub fn no_lists(alloc: Global, count: usize) -> Result<Vec<Vec<u32>>, AllocError>
    ensures { IfOk result (λ lists. map (λ list. list.items) lists.items ≡ replicate count []) }
{
    let mut lists = Vec::new(alloc);
    for _ in 0..count {
        lists.push(Vec::new(alloc))?;
    }
    Ok(lists)
}

/// Appends to the list of this number, if there is one.
pub fn push_to(lists: &mut [Vec<u32>], number: u32, entry: u32) -> Result<(), AllocError> {
    if let Some(found) = lists.get_mut(number as usize) {
        found.push(entry)?;
    }
    Ok(())
}
