//! What places are marked with, for many questions.

ghost use Rattle.std.specs.Prelude.{◌≡◌, ℕ, IfOk, length};
ghost use Rattle.currency_writers.specs.Entries.{AreUpTo};

use std::alloc::{AllocError, Global};

/// For each place the round in which it was marked last, and with what. The marks of earlier rounds are forgotten.
#[derive(Drop)]
pub struct Marks<T: Copy> {
    entries: Vec<(u64, T)>,
    round: u64,
    ghost up_to: { AreUpTo round entries.items },
}

/// So many entries that are of no round.
fn no_entries<T: Copy>(alloc: Global, count: usize, value: T) -> Result<Vec<(u64, T)>, AllocError>
    ensures up_to { IfOk result (λ made. AreUpTo 0 made.items) }
    ensures count { IfOk result (λ made. length made.items ≡ count) }
{
    let mut entries = Vec::with_capacity(alloc, count)?;
    for _made in 0..count {
        entries.push((0, value))?;
    }
    Ok(entries)
}

/// All entries are of no round from here on.
fn clear<T: Copy>(entries: &mut Vec<(u64, T)>)
    ensures up_to { AreUpTo 0 entries.new.items }
    ensures count { length entries.new.items ≡ length entries.old.items }
{
    for k in 0..entries.len() {
        entries[k].0 = 0;
    }
}

impl<T: Copy> Marks<T> {
    ghost use Rattle.std.specs.Prelude.{◌≢◌, ◌<◌, ◌⊎◌, ◌↔◌, All, Contains, None, Some, true};
    ghost use Rattle.currency_writers.specs.Marks.{mark_at, room_of};

    /// No place below a number is marked. Until one is, its entry holds this.
    pub fn new(alloc: Global, places: usize, value: T) -> Result<Marks<T>, AllocError>
        ensures none { IfOk result (λ made. (p : ℕ) → mark_at made p ≡ None) }
        ensures room { IfOk result (λ made. room_of made ≡ places) }
    {
        Ok(Marks {
            entries: no_entries(alloc, places, value)?,
            round: 1,
        })
    }

    /// No place is marked any more.
    pub fn forget(&mut self)
        ensures none { (p : ℕ) → mark_at self.new p ≡ None }
        ensures room { room_of self.new ≡ room_of self.old }
    {
        if self.round < u64::MAX {
            self.round += 1;
            return;
        }
        clear(&mut self.entries);
        self.round = 1;
    }

    /// What a place is marked with, if it is.
    pub fn at(&self, place: u32) -> Option<T>
        ensures { result ≡ mark_at self.now place }
    {
        match self.entries.get(place as usize) {
            Some(entry) if entry.0 == self.round => Some(entry.1),
            _ => None,
        }
    }

    /// Whether a place is marked.
    pub fn has(&self, place: u32) -> bool
        ensures { (result ≡ true) ↔ (mark_at self.now place ≢ None) }
    {
        self.at(place).is_some()
    }

    /// Whether a place may be marked.
    pub fn has_room(&self, place: u32) -> bool
        ensures { (result ≡ true) ↔ (place < room_of self.now) }
    {
        (place as usize) < self.entries.len()
    }

    /// These places are marked with this from here on.
    pub fn mark(&mut self, places: &[u32], value: T)
        requires { All (λ p. p < room_of self.old) places.now }
        ensures only { (p : ℕ) → mark_at self.new p ≢ None → (mark_at self.old p ≢ None) ⊎ Contains places.now p }
        ensures kept { (p : ℕ) → mark_at self.old p ≢ None → mark_at self.new p ≢ None }
        ensures all { All (λ p. mark_at self.new p ≢ None) places.now }
        ensures room { room_of self.new ≡ room_of self.old }
    {
        for place in places {
            self.put(*place, value);
        }
    }

    /// A place is marked with this from here on.
    pub fn put(&mut self, place: u32, value: T)
        requires { place < room_of self.old }
        ensures put { (p : ℕ) → (mark_at self.new p ≡ mark_at self.old p)
            ⊎ ((p ≡ place) × (mark_at self.new p ≡ Some value)) }
        ensures there { mark_at self.new place ≡ Some value }
        ensures room { room_of self.new ≡ room_of self.old }
    {
        self.entries[place as usize] = (self.round, value);
    }
}
