//! What is so on all paths where paths come together.

ghost use Rattle.std.specs.Prelude.{◌≡◌, ◌+◌, ◌<◌, ◌≤◌, ◌⊎◌, ℕ, IfSome, None, Option, Some, false, length, slice_get, true};
ghost use Rattle.graph_core.specs.Graphs.{Recipe as RecipeForm, recipe_view};
ghost use Rattle.currency_notes.specs.Notes.{IsAtMost, IsJoined, IsToldWithin, IsWithin, noted_in, recipe_in, recipe_of, told_in, told_of};
ghost use Rattle.currency_notes.specs.Ranks.{AreWrittenWithin, IsNotedWithin, known_in, name_in, rank, rank_in, rank_of, rank_of_change};

use crate::noted::Noted;
use crate::state::State;
use crate::{is_own, is_same};
use graph_core::Recipe;

/// Whether a change is no greater than another one, if that is one.
fn is_at_most(one: Option<u32>, other: Option<u32>) -> bool
    ensures within { result ≡ true → (d : ℕ) → IsAtMost other d → IsAtMost one d }
    ensures apart { result ≡ false → ((d : ℕ) → IsAtMost other d → IsAtMost one d) → ⊥ }
    ensures falls { result ≡ false → rank_of_change other < rank_of_change one }
{
    match (one, other) {
        (Some(x), Some(y)) => x <= y,
        (Some(_), None) | (None, None) => true,
        (None, Some(_)) => false,
    }
}

/// A recipe with the lesser of two changes, if that is not the first.
fn with_lesser<'a>(recipe: &'a Recipe, change: Option<u32>, other: Option<u32>) -> Option<Noted<'a>>
    ensures within { result ≡ None → IsToldWithin (Some change) (Some other) }
    ensures apart { IfSome result (λ n. IsToldWithin (Some change) (Some other) → ⊥) }
    ensures lesser { IfSome result (λ n. ((x : ℕ) → recipe_of x n ≡ Some (recipe_view recipe.now))
        × (told_of n ≡ Some other) × (rank_of n < 2 + rank_of_change change)) }
{
    if is_at_most(change, other) {
        None
    } else {
        Some(Noted::Recipe {
            recipe,
            change: other,
        })
    }
}

/// What is last noted of a scalar on all paths, where it is this on some, and that on all others; none where it is
/// still this.
pub fn join<'a>(scalar: usize, one: Noted<'a>, other: Noted<'a>) -> Option<Noted<'a>>
    ensures within { result ≡ None → IsNotedWithin scalar one.entry other.entry }
    ensures apart { IfSome result (λ n. IsNotedWithin scalar one.entry other.entry → ⊥) }
    ensures kept { IfSome result (λ n. (r : RecipeForm) → recipe_of scalar one.entry ≡ Some r
        → recipe_of scalar other.entry ≡ Some r → recipe_of scalar n ≡ Some r) }
    ensures told { IfSome result (λ n. (c : Option ℕ) → told_of n ≡ Some c
        → (told_of one.entry ≡ Some c) ⊎ (told_of other.entry ≡ Some c)) }
    ensures falls { IfSome result (λ n. rank_of n < rank_of one.entry) }
{
    match (one, other) {
        (Noted::Lost, _) | (Noted::Own, Noted::Own) => None,
        (Noted::Own, Noted::Recipe { recipe, .. }) => if is_own(scalar, recipe) {
            None
        } else {
            Some(Noted::Lost)
        },
        (Noted::Recipe { recipe, .. }, Noted::Own) => if is_own(scalar, recipe) {
            Some(Noted::Own)
        } else {
            Some(Noted::Lost)
        },
        (
            Noted::Recipe { recipe, change },
            Noted::Recipe {
                recipe: other_recipe,
                change: other_change,
            },
        ) => if is_same(recipe, other_recipe) {
            with_lesser(recipe, change, other_change)
        } else {
            Some(Noted::Lost)
        },
        (Noted::Own, Noted::Lost) => Some(Noted::Lost),
        (Noted::Recipe { .. }, Noted::Lost) => Some(Noted::Lost),
    }
}

/// What is noted of a scalar.
pub fn noted_of<'a>(noted: &[Noted<'a>], scalar: usize) -> Noted<'a>
    ensures { result ≡ noted_in noted.now scalar }
{
    match noted.get(scalar) {
        Some(found) => *found,
        None => Noted::Lost,
    }
}

/// Joins what is noted.
fn join_noted<'a>(to: &mut [Noted<'a>], from: &[Noted<'a>])
    ensures size { length to.new ≡ length to.old }
    ensures kept { (x : ℕ) (r : RecipeForm) → recipe_in to.old x ≡ Some r → recipe_in from.now x ≡ Some r
        → recipe_in to.new x ≡ Some r }
    ensures told { (x : ℕ) (c : Option ℕ) → told_in to.new x ≡ Some c
        → (told_in to.old x ≡ Some c) ⊎ (told_in from.now x ≡ Some c) }
    ensures least { rank_in to.new ≤ rank_in to.old }
    ensures falls { ((x : ℕ) → IsNotedWithin x (noted_in to.old x) (noted_in from.now x))
        ⊎ (rank_in to.new < rank_in to.old) }
{
    for k in 0..to.len() {
        match join(k, to[k], noted_of(from, k)) {
            Some(joined) => to[k] = joined,
            None => {}
        }
    }
}

/// The name that a home was last written for, if one is known.
pub fn name_of(written: &[Option<u32>], home: usize) -> Option<u32>
    ensures { result ≡ name_in written.now home }
{
    match written.get(home) {
        Some(name) => *name,
        None => None,
    }
}

/// Whether a home is known to be last written for a name in one state, and not so in another one.
pub fn is_lost(one: Option<u32>, other: Option<u32>) -> bool
    ensures some { result ≡ true → (y : ℕ) × (one ≡ Some y) }
    ensures apart { result ≡ true → one ≡ other → ⊥ }
    ensures same { result ≡ false → (y : ℕ) → one ≡ Some y → other ≡ Some y }
{
    match (one, other) {
        (Some(x), Some(y)) => x != y,
        (Some(_), None) => true,
        (None, _) => false,
    }
}

/// Joins for which names homes were last written.
fn join_written(to: &mut [Option<u32>], from: &[Option<u32>])
    ensures size { length to.new ≡ length to.old }
    ensures kept { (k y : ℕ) → slice_get to.old k ≡ Some (Some y) → slice_get from.now k ≡ Some (Some y)
        → slice_get to.new k ≡ Some (Some y) }
    ensures least { known_in to.new ≤ known_in to.old }
    ensures falls { AreWrittenWithin to.old from.now ⊎ (known_in to.new < known_in to.old) }
{
    for k in 0..to.len() {
        if is_lost(to[k], name_of(from, k)) {
            to[k] = None;
        }
    }
}

impl<'a> State<'a> {
    /// Keeps what is so in another state too.
    pub fn join(&mut self, other: &State<'a>)
        ensures joined { IsJoined self.old other.now self.new }
        ensures falls { (IsWithin self.old other.now → ⊥) → rank self.new < rank self.old }
    {
        join_noted(&mut self.noted, &other.noted);
        join_written(&mut self.written, &other.written);
    }
}
