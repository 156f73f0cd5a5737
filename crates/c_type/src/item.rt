//! What stands at file scope (6.9), in text order.

ghost use Rattle.std.specs.Prelude.{◌≡◌, ◌+◌, ◌++◌, ◌∷◌, ℕ, [], IfOk, List, OnOk, length, map};
ghost use Rattle.c_tree.specs.Programs.{function_view as typed_view};
ghost use Rattle.c_tree.specs.Trees.{item_view};
ghost use Rattle.c_type.specs.Functions.{IsNumbering, defined, defined_by};
ghost use Rattle.c_type.specs.Items.{beginning, behind_item, items_met};
ghost use Rattle.c_type_declarations.specs.Progress.{means, progress_view};

use crate::function::function;
use crate::header::include;
use c_tree::{Item, TypedFunction};
use c_type_declarations::{Progress, empty_scope, static_declaration};
use c_type_expressions::{Findings, Names, numbered};
use indexmap::IndexMap;
use std::alloc::{AllocError, Global};

/// Numbers a definition, where it is the first of its name.
fn number(
    alloc: Global,
    numbers: &mut IndexMap<String, u32>,
    count: u32,
    name: &str,
) -> Result<(), AllocError>
    ensures { OnOk result
        ((names : List (List ℕ)) → length names ≡ count → IsNumbering numbers.old names
        → IsNumbering numbers.new (names ++ name.now ∷ [])) }
{
    if numbers.get(name).is_some() {
        return Ok(());
    }
    let name = String::from_str(alloc, name)?;
    numbers.insert(name, count)?;
    Ok(())
}

/// Numbers what an item defines, behind so many definitions, and counts it.
fn number_item(
    alloc: Global,
    numbers: &mut IndexMap<String, u32>,
    count: usize,
    item: &Item,
) -> Result<usize, AllocError>
    ensures numbering { OnOk result
        ((names : List (List ℕ)) → length names ≡ count → IsNumbering numbers.old names
        → IsNumbering numbers.new (names ++ defined_by (item_view item.now))) }
    ensures counted { IfOk result (λ n. n ≡ count + length (defined_by (item_view item.now))) }
{
    match item {
        Item::Include { .. } | Item::Declaration(_) => Ok(count),
        Item::Function(f) => {
            if f.body.is_none() {
                return Ok(count);
            }
            number(alloc, numbers, numbered(count)?, &f.identifier.name)?;
            Ok(count.saturating_add(1))
        }
    }
}

/// The number of the first definition of each name that is defined.
pub fn numbers(alloc: Global, items: &[Item]) -> Result<IndexMap<String, u32>, AllocError>
    ensures { IfOk result (λ numbers. IsNumbering numbers (defined (map item_view items.now))) }
{
    let mut numbers = IndexMap::new(alloc);
    let mut count = 0;
    for item in items {
        count = number_item(alloc, &mut numbers, count, item)?;
    }
    Ok(numbers)
}

/// Before the first item nothing is declared.
pub fn beginning(alloc: Global) -> Result<Progress, AllocError>
    ensures { IfOk result (λ p. progress_view p ≡ beginning) }
{
    let mut scopes = Vec::new(alloc);
    scopes.push(empty_scope(alloc))?;
    Ok(Progress {
        names: Names {
            signatures: Vec::new(alloc),
            scopes,
        },
        found: Findings {
            faults: Vec::new(alloc),
            undefined: Vec::new(alloc),
            literals: Vec::new(alloc),
        },
        statics: Vec::new(alloc),
        automatics: Vec::new(alloc),
        array_literals: Vec::new(alloc),
    })
}

/// An item, behind functions. What it defines is added to them.
fn item(
    alloc: Global,
    progress: &mut Progress,
    numbers: &IndexMap<String, u32>,
    functions: &mut Vec<TypedFunction>,
    item: &Item,
) -> Result<(), AllocError>
    ensures { OnOk result
        ((names : List (List ℕ)) → IsNumbering numbers.now names → means (map typed_view functions.new.items)
        (progress_view progress.new) ≡ behind_item names (map typed_view functions.old.items)
        (item_view item.now) (progress_view progress.old)) }
{
    match item {
        Item::Include { spot, header } => include(alloc, progress, *spot, *header),
        Item::Declaration(d) => static_declaration(alloc, progress, d),
        Item::Function(f) => {
            let made = function(alloc, progress, numbers, functions.len(), f)?;
            if let Some(made) = made {
                functions.push(made)?;
            }
            Ok(())
        }
    }
}

/// What stands at file scope, with the functions that are defined.
pub fn items(
    alloc: Global,
    progress: &mut Progress,
    numbers: &IndexMap<String, u32>,
    items: &[Item],
) -> Result<Vec<TypedFunction>, AllocError>
    ensures { IfOk result (λ fs.
        (names : List (List ℕ)) → IsNumbering numbers.now names
        → means (map typed_view fs.items) (progress_view progress.new) ≡ items_met names []
        (map item_view items.now) (progress_view progress.old)) }
{
    let mut functions = Vec::new(alloc);
    for one in items {
        item(alloc, progress, numbers, &mut functions, one)?;
    }
    Ok(functions)
}
