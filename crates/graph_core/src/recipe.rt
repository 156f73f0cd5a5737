//! What notes say of variables.

ghost use Rattle.std.specs.Prelude.{◌≡◌};
ghost use Rattle.graph_core.specs.Graphs as form;
ghost use Rattle.graph_core.specs.Graphs.{recipe_view};

use crate::name::{Name, Operand};
use word_base::{Operation, Truncation};

/// How the value of a variable is computed from names (Hennessy 1982).
#[derive(Drop)]
pub enum Recipe {
    /// The value of an operand.
    Operand(Operand),
    /// What a truncation leaves of a value.
    Truncated(Truncation, Box<Recipe>),
    /// What an operation makes of two values.
    Operated(Operation, Box<Recipe>, Box<Recipe>),
}

impl Recipe {
    /// The recipe of a name's own value.
    pub fn of_name(name: Name) -> Recipe
        ensures { recipe_view result ≡ form.Of (form.Name name.0) }
    {
        Recipe::Operand(Operand::Name(name))
    }
}

/// What a note says of its variable: from here on its value is that of a recipe, or no recipe gives it.
#[derive(Drop)]
pub enum NoteValue {
    Is(Recipe),
    /// The change, by its number, by which the value is gone.
    Gone(u32),
}
