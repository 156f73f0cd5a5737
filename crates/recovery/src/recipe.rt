//! Recipes over homes.

ghost use Rattle.std.specs.Prelude.{◌≡◌};
ghost use Rattle.recovery.specs.Recipes.{value};

use crate::home::{FrameHome, home_value};
use word_base::{Operation, Truncation, operate, truncate};

/// How a value is computed from what homes hold.
#[derive(Drop)]
pub enum PlacedRecipe {
    /// This word.
    Constant(u32),
    /// What a home holds.
    Home(FrameHome),
    /// What is left of a value by a truncation.
    Truncated(Truncation, Box<PlacedRecipe>),
    /// What an operation computes of two values.
    Operated(Operation, Box<PlacedRecipe>, Box<PlacedRecipe>),
}

/// The value of a recipe, of the registers and the stack from the frame on.
pub fn value(recipe: &PlacedRecipe, registers: &[u32; 32], ram: &[u8]) -> u32
    ensures { result ≡ value registers.now ram.now recipe.now }
{
    match recipe {
        PlacedRecipe::Constant(word) => *word,
        PlacedRecipe::Home(home) => home_value(registers, ram, *home),
        PlacedRecipe::Truncated(truncation, inner) => {
            truncate(*truncation, value(inner, registers, ram))
        }
        PlacedRecipe::Operated(operation, left, right) => {
            let first = value(left, registers, ram);
            let second = value(right, registers, ram);
            operate(*operation, first, second)
        }
    }
}
