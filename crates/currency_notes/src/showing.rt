//! What shows the value of a scalar.

ghost use Rattle.std.specs.Prelude.{◌≡◌, ◌↔◌, true};
ghost use Rattle.graph_core.specs.Graphs.{Of, operand_view, recipe_view};
ghost use Rattle.currency_notes.specs.Notes.{AreHeld, IsHeld};

use crate::function::Function;
use crate::state::State;
use graph_core::{Operand, Recipe};

impl<'a> State<'a> {
    /// Whether the home of a name was last written for it.
    pub fn holds(&self, function: &Function<'a>, name: u32) -> bool
        ensures { (result ≡ true) ↔ IsHeld function.now.homes self.now name }
    {
        match function.homes.number(name) {
            Some(number) => match self.written.get(number) {
                Some(Some(written)) => *written == name,
                _ => false,
            },
            None => false,
        }
    }

    /// Whether the home of the name that an operand reads, if it reads one, was last written for it.
    fn holds_operand(&self, function: &Function<'a>, operand: Operand) -> bool
        ensures { (result ≡ true) ↔ AreHeld function.now.homes self.now (Of (operand_view operand)) }
    {
        match operand {
            Operand::Name(name) => self.holds(function, name.0),
            Operand::Constant(_) | Operand::StaticAddress { .. } => true,
        }
    }

    /// Whether the homes of all names that a recipe reads were last written for them.
    pub fn holds_all(&self, function: &Function<'a>, recipe: &Recipe) -> bool
        ensures { (result ≡ true) ↔ AreHeld function.now.homes self.now (recipe_view recipe.now) }
    {
        match recipe {
            Recipe::Operand(operand) => self.holds_operand(function, *operand),
            Recipe::Truncated(_, of) => self.holds_all(function, of),
            Recipe::Operated(_, left, right) => {
                self.holds_all(function, left) && self.holds_all(function, right)
            }
        }
    }
}
