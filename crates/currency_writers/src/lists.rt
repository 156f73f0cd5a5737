//! Lists by number.

ghost use Rattle.std.specs.Prelude.{◌≡◌, ◌≢◌, ◌<◌, ◌≤◌, ◌++◌, ◌+◌, max, ℕ, IfOk, OnOk, [], ◌∷◌};
ghost use Rattle.currency_writers.specs.Lists.{count_of, entries_of};

use std::alloc::{AllocError, Global};

/// So many lists.
#[derive(Drop)]
pub struct Lists {
    lists: Vec<Vec<u32>>,
}

/// How many lists there are to be, where there are to be so many already and one of this number.
pub fn count_with(count: usize, number: u32) -> usize
    ensures least { count ≤ result }
    ensures above { number < result }
    ensures exact { result ≡ max count (number + 1) }
{
    count.max(number as usize + 1)
}

impl Lists {
    /// So many lists without entries.
    pub fn new(alloc: Global, count: usize) -> Result<Lists, AllocError>
        ensures none { IfOk result (λ made. (k : ℕ) → entries_of made k ≡ []) }
        ensures count { IfOk result (λ made. count_of made ≡ count) }
    {
        let mut lists = Vec::new(alloc);
        for _made in 0..count {
            lists.push(Vec::new(alloc))?;
        }
        Ok(Lists { lists })
    }

    /// The list of this number; no entries where there is none.
    pub fn get(&self, number: u32) -> &[u32]
        ensures { result.now ≡ entries_of self.now number }
    {
        match self.lists.get(number as usize) {
            Some(found) => found.as_slice(),
            None => &[],
        }
    }

    /// Appends to the list of this number.
    pub fn push(&mut self, number: u32, entry: u32) -> Result<(), AllocError>
        requires { number < count_of self.old }
        ensures pushed { OnOk result (entries_of self.new number ≡ entries_of self.old number ++ (entry ∷ [])) }
        ensures others { OnOk result ((k : ℕ) → k ≢ number → entries_of self.new k ≡ entries_of self.old k) }
        ensures count { OnOk result (count_of self.new ≡ count_of self.old) }
    {
        self.lists[number as usize].push(entry)?;
        Ok(())
    }
}
