//! What is noted of scalars.

ghost use Rattle.std.specs.Prelude.{◌≡◌, ℕ, List, Option, Some, option_map};
ghost use Rattle.debug_records.specs.declared.change.Place as declared-place;
ghost use Rattle.graph_core.specs.Graphs.{Is, Logged, Recipe as RecipeForm, graph_view, note_view};
ghost use Rattle.currency_notes.specs.Homes.{AreReadBy};
ghost use Rattle.currency_notes.specs.Notes.{recipe_of, told_of};
ghost use Rattle.currency_notes.specs.Sources.{IsFirstOf};
ghost use Rattle.dead_pass_writes.specs.RemovedChangesTelling.{AreToldOf};

use crate::function::Function;
use crate::{is_own, is_reader};
use debug_records::Place;
use graph_core::{Name, NoteValue, Recipe};

/// What is last noted of a scalar.
#[derive(Clone, Copy)]
pub enum Noted<'a> {
    /// Nothing, or not the same on all paths, or a recipe with a home that was written behind the note on one.
    Lost,
    /// That its value is its own.
    Own,
    /// A recipe, and the least change that removed an assignment at a place where such a note comes from, if there is
    /// one.
    Recipe {
        recipe: &'a Recipe,
        change: Option<u32>,
    },
}

/// What a note says of a scalar. A recipe counts only where the scalar is among those whose notes may read the homes of
/// its names.
pub fn read_note<'a>(
    function: &Function<'a>,
    of: Name,
    value: &'a NoteValue,
    place: Option<Place>,
) -> Noted<'a>
    ensures says { (r : RecipeForm) → recipe_of of.0 result ≡ Some r → note_view value.now ≡ Is r }
    ensures full { (r : RecipeForm) → note_view value.now ≡ Is r → AreReadBy function.now.homes r of.0
        → recipe_of of.0 result ≡ Some r }
    ensures read { (r : RecipeForm) → recipe_of of.0 result ≡ Some r → AreReadBy function.now.homes r of.0 }
    ensures told { (log : List Logged) (c : Option ℕ) → AreToldOf log function.now.removed.now → told_of result ≡ Some c
        → IsFirstOf log (graph_view function.now.graph.now) (option_map (λ (p : declared-place.Place). p.0) place) of.0
        c }
{
    match value {
        NoteValue::Gone(_) => Noted::Lost,
        NoteValue::Is(recipe) => if !is_reader(&function.homes, recipe, of.0) {
            Noted::Lost
        } else if is_own(of.0 as usize, recipe) {
            Noted::Own
        } else {
            Noted::Recipe {
                recipe,
                change: function.removal(place, of.0),
            }
        },
    }
}
