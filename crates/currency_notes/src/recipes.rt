//! What recipes read, and which are equal.

ghost use Rattle.std.specs.Prelude.{◌≡◌, ◌↔◌, ◌++◌, IfOk, OnOk, true, false};
ghost use Rattle.graph_core.specs.Graphs.{Name, Of, operand_view, recipe_view};
ghost use Rattle.graph_core.specs.Uses.{names_in, names_of as names_of_operand};
ghost use Rattle.currency_notes.specs.Homes.{AreReadBy, IsUnread};

use crate::homes::Homes;
use graph_core::{Operand, Recipe};
use std::alloc::{AllocError, Global};

/// Whether a recipe is the own value of the name of this number.
pub fn is_own(of: usize, recipe: &Recipe) -> bool
    ensures { (result ≡ true) ↔ (recipe_view recipe.now ≡ Of (Name of)) }
{
    match recipe {
        Recipe::Operand(Operand::Name(name)) => name.0 as usize == of,
        Recipe::Operand(_) | Recipe::Truncated(_, _) | Recipe::Operated(_, _, _) => false,
    }
}

/// Whether two recipes are equal, part by part.
pub fn is_same(one: &Recipe, other: &Recipe) -> bool
    ensures { (result ≡ true) ↔ (recipe_view one.now ≡ recipe_view other.now) }
{
    match (one, other) {
        (Recipe::Operand(x), Recipe::Operand(y)) => *x == *y,
        (Recipe::Truncated(f, x), Recipe::Truncated(g, y)) => *f == *g && is_same(x, y),
        (Recipe::Operated(f, w, x), Recipe::Operated(g, y, z)) => {
            *f == *g && is_same(w, y) && is_same(x, z)
        }
        _ => false,
    }
}

/// Appends the name that an operand reads, if it reads one.
fn push_name(operand: Operand, names: &mut Vec<u32>) -> Result<(), AllocError>
    ensures { OnOk result (names.new.items ≡ names.old.items ++ names_of_operand (operand_view operand)) }
{
    match operand {
        Operand::Name(name) => {
            names.push(name.0)?;
            Ok(())
        }
        Operand::Constant(_) | Operand::StaticAddress { .. } => Ok(()),
    }
}

/// Appends the names that a recipe reads.
fn push_names(recipe: &Recipe, names: &mut Vec<u32>) -> Result<(), AllocError>
    ensures { OnOk result (names.new.items ≡ names.old.items ++ names_in (recipe_view recipe.now)) }
{
    match recipe {
        Recipe::Operand(operand) => push_name(*operand, names),
        Recipe::Truncated(_, of) => push_names(of, names),
        Recipe::Operated(_, left, right) => {
            push_names(left, names)?;
            push_names(right, names)
        }
    }
}

/// The names that a recipe reads, in order.
pub fn names_of(alloc: Global, recipe: &Recipe) -> Result<Vec<u32>, AllocError>
    ensures { IfOk result (λ names. names.items ≡ names_in (recipe_view recipe.now)) }
{
    let mut names = Vec::new(alloc);
    push_names(recipe, &mut names)?;
    Ok(names)
}

/// Whether an operand reads the home of a name.
fn operand_reads_home(homes: &Homes<'_>, operand: Operand, name: u32) -> bool
    ensures { (result ≡ false) ↔ IsUnread homes.now (Of (operand_view operand)) name }
{
    match operand {
        Operand::Name(read) => homes.have_one(read.0, name),
        Operand::Constant(_) | Operand::StaticAddress { .. } => false,
    }
}

/// Whether a recipe reads the home of a name.
pub fn reads_home(homes: &Homes<'_>, recipe: &Recipe, name: u32) -> bool
    ensures { (result ≡ false) ↔ IsUnread homes.now (recipe_view recipe.now) name }
{
    match recipe {
        Recipe::Operand(operand) => operand_reads_home(homes, *operand, name),
        Recipe::Truncated(_, of) => reads_home(homes, of, name),
        Recipe::Operated(_, left, right) => {
            reads_home(homes, left, name) || reads_home(homes, right, name)
        }
    }
}

/// Whether a scalar is among those whose notes may read the home of the name that an operand reads, if it reads one.
fn is_operand_reader(homes: &Homes<'_>, operand: Operand, scalar: u32) -> bool
    ensures { (result ≡ true) ↔ AreReadBy homes.now (Of (operand_view operand)) scalar }
{
    match operand {
        Operand::Name(read) => homes.is_read_by(read.0, scalar),
        Operand::Constant(_) | Operand::StaticAddress { .. } => true,
    }
}

/// Whether a scalar is among those whose notes may read the homes of a recipe's names.
pub fn is_reader(homes: &Homes<'_>, recipe: &Recipe, scalar: u32) -> bool
    ensures { (result ≡ true) ↔ AreReadBy homes.now (recipe_view recipe.now) scalar }
{
    match recipe {
        Recipe::Operand(operand) => is_operand_reader(homes, *operand, scalar),
        Recipe::Truncated(_, of) => is_reader(homes, of, scalar),
        Recipe::Operated(_, left, right) => {
            is_reader(homes, left, scalar) && is_reader(homes, right, scalar)
        }
    }
}
