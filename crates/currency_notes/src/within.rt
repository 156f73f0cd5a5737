//! Whether less is so in one state than in another.

ghost use Rattle.std.specs.Prelude.{◌≡◌, ℕ, false, true};
ghost use Rattle.currency_notes.specs.Notes.{IsWithin, noted_in};
ghost use Rattle.currency_notes.specs.Ranks.{AreWrittenWithin, IsNotedWithin};

use crate::joining::{is_lost, join, name_of, noted_of};
use crate::noted::Noted;
use crate::state::State;

/// Whether no more is noted of each scalar than in another state.
fn are_noted(less: &[Noted<'_>], more: &[Noted<'_>]) -> bool
    ensures within { result ≡ true → (x : ℕ) → IsNotedWithin x (noted_in less.now x) (noted_in more.now x) }
    ensures apart { result ≡ false
        → ((x : ℕ) → IsNotedWithin x (noted_in less.now x) (noted_in more.now x)) → ⊥ }
{
    for k in 0..less.len() {
        match join(k, less[k], noted_of(more, k)) {
            Some(_) => return false,
            None => {}
        }
    }
    true
}

/// Whether each home was last written for the name as in another state, or nothing is known of it.
fn are_written(less: &[Option<u32>], more: &[Option<u32>]) -> bool
    ensures within { result ≡ true → AreWrittenWithin less.now more.now }
    ensures apart { result ≡ false → AreWrittenWithin less.now more.now → ⊥ }
{
    for k in 0..less.len() {
        if is_lost(less[k], name_of(more, k)) {
            return false;
        }
    }
    true
}

impl<'a> State<'a> {
    /// Whether no more is so than in another state.
    pub fn is_within(&self, other: &State<'a>) -> bool
        ensures within { result ≡ true → IsWithin self.now other.now }
        ensures apart { result ≡ false → IsWithin self.now other.now → ⊥ }
    {
        are_noted(&self.noted, &other.noted) && are_written(&self.written, &other.written)
    }
}
